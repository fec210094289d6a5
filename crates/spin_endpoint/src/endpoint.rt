//! What an endpoint does.

ghost use Rattle.std.specs.Prelude.{◌≡◌, IfSome, Some};
ghost use Rattle.spin_endpoint.specs.Endpoints.{EndpointSeen, Takes, finished_once};

use spin_outside::Failed;
use spin_values::Octets;

/// Takes pieces of bytes in order, and is finished once it is retired.
pub trait Endpoint: Drop {
    /// What contracts see of the endpoint at a moment.
    ghost seen: { Self → EndpointSeen };

    /// Takes the piece whole, and adds it to those that the endpoint received. It fails only where the count of
    /// faults rose, and has then received nothing.
    fn take(&mut self, bytes: &[u8]) -> Result<(), Failed>
        ensures { Takes bytes.now result (seen self.old) (seen self.new) };

    /// Finishes the endpoint: its count of finishes rises by one, and nothing else changes.
    fn finish(&mut self)
        ensures { seen self.new ≡ finished_once (seen self.old) };

    /// The pieces that it has received, in order, where it hands them out, as few endpoints do. It changes nothing, and
    /// takes no memory.
    fn pieces(&self) -> Option<&[Octets]>
        ensures { IfSome result (λ pieces. (seen self.now).pieces ≡ Some pieces.now) }
    {
        None
    }
}
