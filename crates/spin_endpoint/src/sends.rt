//! Endpoints by number: sends that are delivered in one call, and numbers that are retired in one.

ghost use Rattle.std.specs.Prelude.{◌≡◌, ◌<◌, ◌≤◌, ◌+◌, ◌-◌, ◌^◌, ℕ, false, length, All};
ghost use Rattle.std.specs.Prelude.{slice_index_or, slice_set, replicate};
ghost use Rattle.spin_endpoint.specs.Named.{stands, changed_as, retired};
ghost use Rattle.spin_endpoint.specs.Sends.{DeliversAll, all_retired, stands_in_turn};

use crate::ends::{Ends, EndsSeen, MAX_ENDPOINTS};
use crate::faults::{DeliverFault, Unknown};
use spin_values::Text;
use std::marker::Model;

/// Bytes that are sent to the endpoint of a number, from 0.
#[derive(Debug, Drop)]
pub struct Sent<'a> {
    endpoint: u8,
    bytes: &'a [u8],
}

impl<'a> Model for Sent<'a> {
    ghost use Rattle.spin_endpoint.specs.Sends.{SentSeen};

    ghost Value = { SentSeen };

    ghost view = { λ s. record { endpoint = s.endpoint; bytes = s.bytes.now } };
}

impl<'a> Sent<'a> {
    /// These bytes, sent to that endpoint.
    pub fn new(endpoint: u8, bytes: &'a [u8]) -> Sent<'a>
        ensures { result ≡ record { endpoint = endpoint; bytes = bytes.now } }
    {
        Sent { endpoint, bytes }
    }

    fn endpoint(&self) -> u8
        ensures { result ≡ self.now.endpoint }
    {
        self.endpoint
    }

    fn bytes(&self) -> &[u8]
        ensures { result.now ≡ self.now.bytes }
    {
        self.bytes
    }
}

/// How many sends to each number were lost, since no endpoint stands under its name.
#[derive(Debug, Drop)]
pub struct Lost {
    counts: [u64; MAX_ENDPOINTS],
}

impl Model for Lost {
    ghost use Rattle.std.specs.Prelude.{ℕ, List};

    ghost Value = { List ℕ };

    ghost view = { λ l. l.counts };
}

impl Lost {
    // None was lost.
    fn none() -> Lost
        ensures { result ≡ replicate MAX_ENDPOINTS 0 }
    {
        Lost {
            counts: [0; MAX_ENDPOINTS],
        }
    }

    /// How many sends to a number below 64 were lost.
    pub fn to(&self, number: u8) -> u64
        requires { number < MAX_ENDPOINTS }
        ensures { result ≡ slice_index_or self.now number 0 }
    {
        self.counts[number as usize]
    }

    // Counts one more to the number.
    fn add(&mut self, number: u8)
        requires there { number < MAX_ENDPOINTS }
        requires room { slice_index_or self.old number 0 < 2 ^ 64 - 1 }
        ensures { self.new ≡ slice_set self.old number (slice_index_or self.old number 0 + 1) }
    {
        self.counts[number as usize] += 1;
    }
}

impl Ends {
    /// Delivers the sends in their order, `names` being the names of the numbers. A send to a name under which no
    /// endpoint stands is lost, and counted to its number. It stops at the first that fails, and answers its
    /// number: those before it are delivered, and those behind it not. It takes no memory. Its time is that of a
    /// search by name for each send.
    pub fn deliver_all(&mut self, names: &[Text], sends: &[Sent<'_>]) -> Result<Lost, u8>
        requires few { length names.now ≤ MAX_ENDPOINTS }
        requires named { All (λ sent. sent.endpoint < length names.now) sends.now }
        ensures { DeliversAll names.now sends.now result
            (⟦<Ends as EndsSeen>⟧.all self.old) (⟦<Ends as EndsSeen>⟧.all self.new) }
    {
        let mut lost = Lost::none();
        for sent in sends {
            let number = sent.endpoint();
            match self.deliver(&names[number as usize], sent.bytes()) {
                Ok(()) => {}
                Err(DeliverFault::Unknown) => lost.add(number),
                Err(DeliverFault::Failed) => return Err(number),
            }
        }
        Ok(lost)
    }

    // Retires the endpoint that stands under the name, if one does, and answers whether one did.
    fn retire_if(&mut self, name: &Text) -> bool
        ensures stood { result ≡ stands name.now (⟦<Ends as EndsSeen>⟧.all self.old) }
        ensures ends { ⟦<Ends as EndsSeen>⟧.all self.new
            ≡ changed_as name.now retired (⟦<Ends as EndsSeen>⟧.all self.old) }
    {
        match self.retire(name) {
            Ok(()) => true,
            Err(Unknown) => false,
        }
    }

    /// Retires the endpoints of the numbers in their order, `names` being the names of the numbers, and notes of
    /// each number whether an endpoint stood under its name then. It takes no memory. Its time is that of a search
    /// by name for each number.
    pub fn retire_all(&mut self, names: &[Text], numbers: &[u16], stood: &mut [bool])
        requires named { All (λ number. number < length names.now) numbers.now }
        requires room { length stood.old ≡ length numbers.now }
        ensures ends { ⟦<Ends as EndsSeen>⟧.all self.new
            ≡ all_retired names.now numbers.now (⟦<Ends as EndsSeen>⟧.all self.old) }
        ensures stood { (turn : ℕ) → turn < length numbers.now → slice_index_or stood.new turn false
            ≡ stands_in_turn names.now numbers.now (⟦<Ends as EndsSeen>⟧.all self.old) turn }
    {
        for at in 0..numbers.len() {
            stood[at] = self.retire_if(&names[numbers[at] as usize]);
        }
    }
}
