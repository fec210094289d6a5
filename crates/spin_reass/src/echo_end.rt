//! An endpoint that answers echo requests.

ghost use Rattle.std.specs.Prelude.{◌≡◌, ◌≤◌, true, false, length, take, Ok, IfOk, MatchResult};
ghost use Rattle.spin_endpoint.specs.Endpoints.{Takes, finished_once};
ghost use Rattle.spin_reass.specs.Echoes.{Replies, reply_to, untold};

use crate::echo::echo_reply;
use crate::limits::MAX_ECHO;
use spin_endpoint::Endpoint;
use spin_outside::Failed;
use spin_values::NoMemory;
use std::alloc::Global;
use std::marker::Model;

// Writes the reply to a request to the front of the room, and answers whether there is one.
fn write_front(request: &[u8], room: &mut [u8]) -> bool
    requires { length request.now ≤ length room.old }
    ensures { MatchResult (reply_to request.now)
        (λ reply. (result ≡ true) × (take (length request.now) room.new ≡ reply))
        (λ _. result ≡ false) }
{
    echo_reply(request, &mut room[..request.len()]).is_ok()
}

/// Hands the reply to each ICMP echo request that it receives to another endpoint, and nothing else. It tells no
/// pieces. Contracts see the other endpoint in it.
#[derive(Drop)]
pub struct EchoEnd<E: Endpoint> {
    inner: E,
    room: Vec<u8>,
}

impl<E: Endpoint> Model for EchoEnd<E> {
    ghost use Rattle.std.specs.Prelude.{◌≡◌, length};
    ghost use Rattle.spin_reass.specs.declared.limits.TheConstants.{MAX_ECHO};

    ghost Value = { E };

    ghost view = { λ e. e.inner };

    ghost invariant = { λ e. length e.room.items ≡ MAX_ECHO };
}

impl<E: Endpoint> EchoEnd<E> {
    /// Answers requests through that endpoint. It takes the memory for a reply of 65,535 bytes now; after want of
    /// memory the other endpoint is dropped.
    pub fn new(alloc: Global, inner: E) -> Result<EchoEnd<E>, NoMemory>
        ensures { IfOk result (λ end. end ≡ inner) }
    {
        let room = vec![in alloc; 0u8; MAX_ECHO]?;
        Ok(EchoEnd { inner, room })
    }
}

impl<E: Endpoint> Endpoint for EchoEnd<E> {
    ghost seen = { λ e. untold (E.seen e) };

    /// Of a request of at most 65,535 bytes it is one `take` of the reply by the other endpoint; of any other piece it
    /// is Ok, and the other endpoint is left as it is. It takes no memory, and two passes over the piece.
    fn take(&mut self, bytes: &[u8]) -> Result<(), Failed>
        ensures takes { Takes bytes.now result
            (untold (E.seen self.old)) (untold (E.seen self.new)) }
        ensures replies { Replies bytes.now
            (λ reply. Takes reply result (E.seen self.old) (E.seen self.new))
            ((result ≡ Ok tt) × (self.new ≡ self.old)) }
    {
        if bytes.len() > MAX_ECHO || !write_front(bytes, &mut self.room) {
            return Ok(());
        }
        self.inner.take(&self.room[..bytes.len()])
    }

    /// Finishes the other endpoint.
    fn finish(&mut self)
        ensures { E.seen self.new ≡ finished_once (E.seen self.old) }
    {
        self.inner.finish();
    }
}
