//! The doing of steps that read headers.

ghost use Rattle.std.specs.Prelude.{◌≡◌, IfOk};
ghost use Rattle.spin_objects.specs.Layers.{packet_args, frame_args, datagram_args, layer_args};

use spin_code::{Layer, argument_bytes, argument_word};
use spin_headers::{HeaderFault, read_ether, read_ipv4, read_udp};
use spin_values::{Args, NoMemory, Octets, Value};
use std::alloc::Global;

// The number of bytes of an Ethernet II header (RFC 894).
const ETHER_HEADER: usize = 14;

// The number of bytes of a UDP header (RFC 768).
const UDP_HEADER: usize = 8;

// The payload of an IPv4 packet, its protocol and its two addresses; or its first fault.
fn read_packet(alloc: Global, packet: &[u8]) -> Result<Result<Args, HeaderFault>, NoMemory>
    ensures { IfOk result (λ read. read ≡ packet_args packet.now) }
{
    let header = match read_ipv4(packet) {
        Ok(header) => header,
        Err(fault) => return Ok(Err(fault)),
    };
    let payload = &packet[usize::from(header.header_len)..usize::from(header.total_len)];
    let mut args = Args::with_capacity(alloc, 4)?;
    args.push(Value::Bytes(Octets::from_bytes(alloc, payload)?))?;
    args.push(Value::Word(u64::from(header.protocol)))?;
    args.push(Value::Word(u64::from(header.source)))?;
    args.push(Value::Word(u64::from(header.destination)))?;
    Ok(Ok(args))
}

// The same of the packet in an Ethernet frame; or the first fault of the frame and the packet.
fn read_frame(alloc: Global, frame: &[u8]) -> Result<Result<Args, HeaderFault>, NoMemory>
    ensures { IfOk result (λ read. read ≡ frame_args frame.now) }
{
    match read_ether(frame) {
        Ok(_) => read_packet(alloc, &frame[ETHER_HEADER.min(frame.len())..]),
        Err(fault) => Ok(Err(fault)),
    }
}

// The payload of a UDP datagram between these addresses, its two ports and the addresses; or its first fault.
fn read_datagram(
    alloc: Global,
    datagram: &[u8],
    source: u32,
    destination: u32,
) -> Result<Result<Args, HeaderFault>, NoMemory>
    ensures { IfOk result (λ read. read ≡ datagram_args datagram.now source destination) }
{
    let header = match read_udp(datagram, source, destination) {
        Ok(header) => header,
        Err(fault) => return Ok(Err(fault)),
    };
    let payload = &datagram[UDP_HEADER..usize::from(header.length)];
    let mut args = Args::with_capacity(alloc, 5)?;
    args.push(Value::Bytes(Octets::from_bytes(alloc, payload)?))?;
    args.push(Value::Word(u64::from(header.source_port)))?;
    args.push(Value::Word(u64::from(header.destination_port)))?;
    args.push(Value::Word(u64::from(source)))?;
    args.push(Value::Word(u64::from(destination)))?;
    Ok(Ok(args))
}

// The arguments of the raise upwards that a layer step makes of these arguments, or the first fault of the headers.
pub(crate) fn read_layer(
    alloc: Global,
    layer: Layer,
    args: &Args,
) -> Result<Result<Args, HeaderFault>, NoMemory>
    ensures { IfOk result (λ read. read ≡ layer_args layer args.now) }
{
    let bytes = argument_bytes(args, 0);
    match layer {
        Layer::Ipv4 => read_frame(alloc, bytes),
        Layer::Udp => {
            // an address is the low 32 bits of its word
            let source = (argument_word(args, 2) % (1 << 32)) as u32;
            let destination = (argument_word(args, 3) % (1 << 32)) as u32;
            read_datagram(alloc, bytes, source, destination)
        }
    }
}
