//! Replies to ICMP echo requests.

ghost use Rattle.std.specs.Prelude.{◌≡◌, ◌≤◌, length, Ok, Err, MatchResult, OnOk};
ghost use Rattle.spin_headers.specs.Sums.{word_sum};
ghost use Rattle.spin_reass.specs.Echoes.{reply, reply_to};

use crate::fault::EchoFault;
use byteorder::{BigEndian, ByteOrder};
use spin_headers::checksum;

// The number of bytes of the header: type, code, checksum, identifier and sequence number.
const HEADER: usize = 8;

// The type of an echo request. That of a reply is 0.
const REQUEST: u8 = 8;

// Writes the reply to a request.
fn write_reply(request: &[u8], out: &mut [u8])
    requires header { 8 ≤ length request.now }
    requires room { length out.old ≡ length request.now }
    ensures reply { out.new ≡ reply request.now }
    ensures valid { word_sum out.new ≡ 65535 }
{
    out.copy_from_slice(request);
    out[..4].copy_from_slice(&[0; 4]);
    let sum = checksum(out);
    BigEndian::write_u16(&mut out[2..], sum);
}

/// Writes the reply to an ICMP echo request (RFC 792) into `out`, which is as long as the request: type 0, code 0, the
/// right checksum, and the request's bytes from 4 on. It takes no memory, and two passes.
///
/// The first of these that applies is answered, and `out` is then unchanged:
/// - [`EchoFault::Short`] under 8 bytes;
/// - [`EchoFault::NotEcho`] where the type isn't 8 or the code isn't 0;
/// - [`EchoFault::Checksum`] where the 16-bit words of the request don't sum to 0xFFFF.
pub fn echo_reply(request: &[u8], out: &mut [u8]) -> Result<(), EchoFault>
    requires room { length out.old ≡ length request.now }
    ensures reply { MatchResult (reply_to request.now)
        (λ reply. (result ≡ Ok tt) × (out.new ≡ reply))
        (λ fault. (result ≡ Err fault) × (out.new ≡ out.old)) }
    ensures valid { OnOk result (word_sum out.new ≡ 65535) }
{
    if request.len() < HEADER {
        return Err(EchoFault::Short);
    }
    if request[0] != REQUEST || request[1] != 0 {
        return Err(EchoFault::NotEcho);
    }
    if checksum(request) != 0 {
        return Err(EchoFault::Checksum);
    }
    write_reply(request, out);
    Ok(())
}
