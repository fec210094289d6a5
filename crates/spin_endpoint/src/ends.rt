//! Endpoints by name.

ghost use Rattle.std.specs.Prelude.{◌≡◌, ◌≢◌, ◌<◌, ◌≤◌, ℕ, Bool, true, false, List, Option};
ghost use Rattle.std.specs.Prelude.{MatchResult, OnOk, OnErr, map, [], ◌∷◌, ◌++◌, length, All};
ghost use Rattle.std.specs.Prelude.{IfErr, IfNone, IfSome, Some};
ghost use Rattle.std.specs.List.{HoldsAt, AllPairs};

use crate::endpoint::Endpoint;
use crate::faults::{DeliverFault, EndsFault, Unknown};
use spin_outside::Failed;
use spin_values::{Octets, Text};
use std::alloc::Global;

/// The most endpoints: of a script, and of those that are added, retired ones counted.
pub const MAX_ENDPOINTS: usize = 64;

/// What contracts see of one endpoint beside its name.
pub trait EndSeen {
    ghost use Rattle.spin_endpoint.specs.Named.{NamedEnd};

    ghost one: { Self → NamedEnd };
}

/// What contracts see of all endpoints, in the order of adding.
pub trait EndsSeen {
    ghost use Rattle.spin_endpoint.specs.Named.{NamedEnd};

    ghost all: { Self → List NamedEnd };
}

/// An endpoint, its name, and whether it stands.
#[derive(Drop)]
pub struct End {
    name: Text,
    stands: bool,
    object: Box<dyn Endpoint>,
}

impl EndSeen for End {
    ghost use Rattle.spin_endpoint.specs.Inner.View.{view_of};

    ghost one = { view_of (λ e. (Endpoint-box e.object).seen e.object.value) };
}

impl End {
    ghost use Rattle.spin_outside.specs.Counts.{Rose};
    ghost use Rattle.spin_endpoint.specs.Endpoints.{OnlyFails};
    ghost use Rattle.spin_endpoint.specs.Named.{stands_as, with_piece, with_faults, retired};

    fn stands_as(&self, name: &Text) -> bool
        ensures { result ≡ stands_as name.now (⟦<End as EndSeen>⟧.one self.now) }
    {
        self.stands && self.name.as_slice() == name.as_slice()
    }

    fn take(&mut self, bytes: &[u8]) -> Result<(), Failed>
        ensures ok { let old = ⟦<End as EndSeen>⟧.one self.old in
            OnOk result (⟦<End as EndSeen>⟧.one self.new ≡ with_piece bytes.now old) }
        ensures err { let old = ⟦<End as EndSeen>⟧.one self.old in let new = ⟦<End as EndSeen>⟧.one self.new in
            OnErr result (new ≡ with_faults new.object.faults old) }
        ensures rose { let old = ⟦<End as EndSeen>⟧.one self.old in let new = ⟦<End as EndSeen>⟧.one self.new in
            OnErr result (Rose old.object.faults new.object.faults) }
    {
        self.object.take(bytes)
    }

    fn retire(&mut self)
        ensures { ⟦<End as EndSeen>⟧.one self.new ≡ retired (⟦<End as EndSeen>⟧.one self.old) }
    {
        self.object.finish();
        self.stands = false;
    }

    fn pieces(&self) -> Option<&[Octets]>
        ensures { IfSome result (λ pieces. (⟦<End as EndSeen>⟧.one self.now).object.pieces ≡ Some pieces.now) }
    {
        self.object.pieces()
    }
}

/// Endpoints in the order of adding, of which no two stand under the same name. A retired one stays, receives
/// nothing more, and is dropped with the others.
#[derive(Drop)]
pub struct Ends {
    ends: Vec<End>,
    ghost apart: { AllPairs
        (λ a b. a.stands ≡ true → b.stands ≡ true → a.name ≢ b.name) ends.items },
}

impl EndsSeen for Ends {
    ghost use Rattle.std.specs.Prelude.{map};
    ghost use Rattle.spin_endpoint.specs.Inner.View.{view_of};

    ghost all = { λ es.
        map (view_of (λ e. (Endpoint-box e.object).seen e.object.value)) es.ends.items };
}

impl Ends {
    ghost use Rattle.spin_endpoint.specs.Named.{stands_as, stands, added, Delivers, Retires};
    ghost use Rattle.spin_endpoint.specs.Named.{CanAdd, IsFaultOf};

    /// No endpoint.
    pub fn new(alloc: Global) -> Ends
        ensures { ⟦<Ends as EndsSeen>⟧.all result ≡ [] }
    {
        Ends {
            ends: Vec::new(alloc),
        }
    }

    // The place of the endpoint that stands under the name.
    fn find(&self, name: &Text) -> Option<usize>
        ensures none { IfNone result
            (stands name.now (⟦<Ends as EndsSeen>⟧.all self.now) ≡ false) }
        ensures there { IfSome result
            (λ at. at < length (⟦<Ends as EndsSeen>⟧.all self.now)) }
        ensures some { IfSome result
            (HoldsAt (λ end. stands_as name.now end ≡ true) (⟦<Ends as EndsSeen>⟧.all self.now)) }
    {
        for (at, end) in self.ends.iter().enumerate() {
            if end.stands_as(name) {
                return Some(at);
            }
        }
        None
    }

    /// Whether an endpoint stands under the name. It takes no memory, and changes nothing.
    pub fn stands(&self, name: &Text) -> bool
        ensures { result ≡ stands name.now (⟦<Ends as EndsSeen>⟧.all self.now) }
    {
        if let Some(_at) = self.find(name) {
            return true;
        }
        false
    }

    /// The pieces that an endpoint has received, in order, where it hands them out; its place is that in the order of
    /// adding, from 0. It takes no memory, and changes nothing.
    pub fn pieces(&self, at: usize) -> Option<&[Octets]>
        requires { at < length (⟦<Ends as EndsSeen>⟧.all self.now) }
        ensures { IfSome result (λ pieces.
            HoldsAt (λ end. end.object.pieces ≡ Some pieces.now) (⟦<Ends as EndsSeen>⟧.all self.now) at) }
    {
        self.ends[at].pieces()
    }

    /// Adds an endpoint, which stands. A refused object comes back. `SameName` comes exactly where an endpoint
    /// stands under the name; else `TooMany` comes exactly where 64 were added, retired ones counted; `NoMemory` comes
    /// only where neither does.
    pub fn add(
        &mut self,
        name: Text,
        object: Box<dyn Endpoint>,
    ) -> Result<(), (EndsFault, Box<dyn Endpoint>)>
        ensures ok { OnOk result
            (⟦<Ends as EndsSeen>⟧.all self.new
            ≡ ⟦<Ends as EndsSeen>⟧.all self.old ++ added name (seen object) ∷ []) }
        ensures back { IfErr result (λ refused. refused.1 ≡ object) }
        ensures left { OnErr result
            (⟦<Ends as EndsSeen>⟧.all self.new ≡ ⟦<Ends as EndsSeen>⟧.all self.old) }
        ensures fault { MatchResult result
            (λ _. CanAdd name (⟦<Ends as EndsSeen>⟧.all self.old))
            (λ refused. IsFaultOf name (⟦<Ends as EndsSeen>⟧.all self.old) refused.0) }
    {
        match self.find(&name) {
            Some(_) => Err((EndsFault::SameName, object)),
            None => {
                if self.ends.len() >= MAX_ENDPOINTS {
                    return Err((EndsFault::TooMany, object));
                }
                let end = End {
                    name,
                    stands: true,
                    object,
                };
                match self.ends.push(end) {
                    Ok(()) => Ok(()),
                    Err(full) => {
                        let End {
                            name: _,
                            stands: _,
                            object,
                        } = full.value;
                        Err((EndsFault::NoMemory, object))
                    }
                }
            }
        }
    }

    /// Hands the piece to the endpoint that stands under the name, once, and to no other. `Unknown` comes exactly
    /// where none stands under it, `Failed` only where that endpoint's count of faults rose. After a refusal no
    /// piece is added. It takes no memory.
    pub fn deliver(&mut self, name: &Text, bytes: &[u8]) -> Result<(), DeliverFault>
        ensures { Delivers name.now bytes.now result
            (⟦<Ends as EndsSeen>⟧.all self.old) (⟦<Ends as EndsSeen>⟧.all self.new) }
    {
        match self.find(name) {
            None => Err(DeliverFault::Unknown),
            Some(at) => match self.ends[at].take(bytes) {
                Ok(()) => Ok(()),
                Err(Failed) => Err(DeliverFault::Failed),
            },
        }
    }

    /// Finishes the endpoint that stands under the name, which then no longer stands. `Unknown` comes exactly
    /// where none stands under it. It takes no memory.
    pub fn retire(&mut self, name: &Text) -> Result<(), Unknown>
        ensures { Retires name.now result
            (⟦<Ends as EndsSeen>⟧.all self.old) (⟦<Ends as EndsSeen>⟧.all self.new) }
    {
        match self.find(name) {
            None => Err(Unknown),
            Some(at) => {
                self.ends[at].retire();
                Ok(())
            }
        }
    }
}
