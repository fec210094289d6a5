//! The reader of a capture.

ghost use Rattle.std.specs.Prelude.{◌≡◌, ◌<◌, ◌≤◌, ◌+◌, ℕ, List, [], ◌++◌, length, IfOk, IfErr};
ghost use Rattle.std.specs.Prelude.{IfSome, ⊤, true, false, Err};
ghost use Rattle.spin_pcap.specs.Captures.{HasRecordHeader};
ghost use Rattle.spin_pcap.specs.Inner.Filling.{Copies};
ghost use Rattle.spin_pcap.specs.Inner.Held.{HasPassed};
ghost use Rattle.spin_pcap.specs.Passing.{Passes, UnlessFailed, ReadsByCount, IsStart};
ghost use Rattle.spin_pcap.specs.Passing.{TakesHeader, IsFresh, IsAnswer, IsGone};
ghost use Rattle.spin_pcap.specs.Passing.{EmptyUnlessPacket, IfReading, Repeats, given_after};
ghost use Rattle.spin_pcap.specs.Passing.{state_after, left_for, IsCutShort, IsRefusal};

use crate::fault::PcapFault;
use crate::header::{HEADER, read_header};
use crate::limits::{MAX_CAPTURED, MAX_HELD, MAX_RECORDS};
use crate::next::Next;
use crate::order::Order;
use crate::state::State;
use crate::window::Window;
use spin_outside::{Octets, Source};
use std::alloc::Global;
use std::marker::Model;

// The number of bytes of the header of a record.
const RECORD: usize = 16;

/// Reads a capture record by record. The bytes that it took and hasn't given are at most 65,536.
#[derive(Debug, Drop)]
pub struct Reader {
    order: Order,
    window: Window<MAX_HELD>,
    given: u32,
    state: State,
}

impl Model for Reader {
    ghost use Rattle.std.specs.Prelude.{◌≤◌, length};
    ghost use Rattle.spin_pcap.specs.declared.limits.TheConstants.{MAX_HELD, MAX_RECORDS};
    ghost use Rattle.spin_pcap.specs.Passing.{ReaderState};

    ghost Value = { ReaderState };

    ghost view = { λ r. record {
      order = r.order;
      held = r.window;
      given = r.given;
      state = r.state;
    } };

    ghost invariant = { λ r. (length r.window ≤ MAX_HELD) × (r.given ≤ MAX_RECORDS) };
}

// Moves that many bytes behind those of the frame. The answer says whether there were so many.
fn copy_body<S: Source>(
    window: &mut Window<MAX_HELD>,
    source: &mut S,
    count: usize,
    frame: &mut Octets,
) -> Result<bool, PcapFault>
    requires empty { frame.old ≡ [] }
    ensures passed { Passes frame.new
        window.old (S.seen source.old) window.new (S.seen source.new) }
    ensures copied { Copies result count frame.new window.new (S.seen source.new).left }
    ensures failed { IfErr result (λ wrong. UnlessFailed wrong ⊥) }
    ensures bound { length window.old ≤ MAX_HELD → length window.new ≤ MAX_HELD }
    ensures cause { ReadsByCount (S.seen source.old).faults (S.seen source.new).faults result }
{
    let mut rest = count;
    while rest > 0 {
        window.need(source, 1)?;
        let held = window.held();
        if held.is_empty() {
            return Ok(false);
        }
        let piece = held.len().min(rest);
        frame.extend_from_slice(&held[..piece])?;
        window.skip(piece);
        rest -= piece;
    }
    Ok(true)
}

// Reads what comes next. After an end or a refusal the frame may have bytes of a record that isn't whole.
fn read_record<S: Source>(
    window: &mut Window<MAX_HELD>,
    source: &mut S,
    order: Order,
    given: u32,
    frame: &mut Octets,
) -> Result<Next, PcapFault>
    requires empty { frame.old ≡ [] }
    ensures answer { IfSome (left_for window.old (S.seen source.old).left) (λ bytes.
        IsAnswer order given bytes result frame.new
        (left_for window.new (S.seen source.new).left)) }
    ensures few { result ≡ Ok Next.Packet → given < MAX_RECORDS }
    ensures cut { IsCutShort given result }
    ensures refused { IsRefusal given result }
    ensures memory { result ≡ Err PcapFault.NoMemory →
        IfSome (left_for window.old (S.seen source.old).left) (HasRecordHeader order given) }
    ensures passed { (gone : List ℕ)
        × Passes gone window.old (S.seen source.old) window.new (S.seen source.new)
        × IsGone order result gone frame.new }
    ensures bound { length window.new ≤ MAX_HELD }
    ensures cause { ReadsByCount (S.seen source.old).faults (S.seen source.new).faults result }
{
    window.need(source, RECORD)?;
    let held = window.held();
    if held.is_empty() {
        return Ok(Next::End);
    }
    if given >= MAX_RECORDS {
        return Err(PcapFault::TooManyRecords);
    }
    if held.len() < RECORD {
        return Ok(Next::Cut(held.len() as u32));
    }
    let captured = order.read_u32(&held[8..]);
    if captured > MAX_CAPTURED {
        return Err(PcapFault::TooLong);
    }
    window.skip(RECORD);
    match copy_body(window, source, captured as usize, frame) {
        Ok(whole) => {
            if whole {
                Ok(Next::Packet)
            } else {
                Ok(Next::Cut((RECORD + frame.len()) as u32))
            }
        }
        Err(fault) => Err(fault),
    }
}

impl Reader {
    /// Reads the header of a capture. The first of these that applies is answered:
    /// - [`PcapFault::Short`] where fewer than 24 bytes are there;
    /// - [`PcapFault::BadMagic`] where the first field isn't a magic in either byte order;
    /// - [`PcapFault::BadVersion`] where the version isn't 2.4;
    /// - [`PcapFault::BadLink`] where the link type field isn't 1.
    ///
    /// [`PcapFault::ReadFault`] comes only where the source's count of faults rose, and
    /// [`PcapFault::NoMemory`] for want of memory. The reader takes at most 65,536 bytes past the header.
    pub fn start<S: Source>(alloc: Global, source: &mut S) -> Result<Reader, PcapFault>
        ensures answer { IfSome (S.seen source.old).left
            (λ bytes. IsStart bytes result (S.seen source.new).left) }
        ensures fresh { IfOk result IsFresh }
        ensures taken { TakesHeader result (S.seen source.old) (S.seen source.new) }
        ensures keep { (S.seen source.new).keep ≡ (S.seen source.old).keep }
        ensures cause { ReadsByCount (S.seen source.old).faults (S.seen source.new).faults result }
    {
        let mut window = Window::new(alloc)?;
        window.need(source, HEADER)?;
        let order = match read_header(window.held()) {
            Ok(order) => order,
            Err(fault) => return Err(fault),
        };
        window.skip(HEADER);
        Ok(Reader {
            order,
            window,
            given: 0,
            state: State::Reading,
        })
    }

    /// Replaces the frame by the bytes of the next record.
    ///
    /// `End` comes exactly where nothing is left, and `Cut` where bytes are left that are no whole record and no
    /// refusal applies; these are fewer than a record may have. After them, and after a refusal, the frame has no
    /// bytes. `End` and `Cut` are answered again at every later call; after a refusal every later call answers
    /// [`PcapFault::Spoilt`] with its number. Such calls don't read. Else the refusals are:
    /// - [`PcapFault::TooManyRecords`] exactly where a byte follows 1,048,576 whole records;
    /// - [`PcapFault::TooLong`] exactly where fewer were given, and the next one's captured length is over 262,144;
    /// - [`PcapFault::ReadFault`] only where the source's count of faults rose;
    /// - [`PcapFault::NoMemory`] for want of memory, and only where the whole header of a record stands that may be
    ///   given: an end, a rest without such a header and a refusal are never told as want of memory.
    ///
    /// The time is linear in the bytes that are taken and given: each byte is copied at most twice. At any time
    /// the reader holds at most 65,536 bytes past the records that it gave; a call that gives none has passed at most
    /// a part of one record.
    pub fn next<S: Source>(&mut self, source: &mut S, frame: &mut Octets) -> Result<Next, PcapFault>
        ensures repeats { Repeats self.old.state result }
        ensures answer { IfReading self.old.state
            (IfSome (left_for self.old.held (S.seen source.old).left) (λ bytes.
            IsAnswer self.old.order self.old.given bytes result frame.new
            (left_for self.new.held (S.seen source.new).left)))
            (source.new ≡ source.old) }
        ensures reader { IfReading self.old.state
            (self.new ≡ record self.old {
              held = self.new.held;
              given = given_after self.old.given result;
              state = state_after result;
            })
            (self.new ≡ self.old) }
        ensures frame { EmptyUnlessPacket result frame.new }
        ensures passed { (gone : List ℕ)
            × Passes gone self.old.held (S.seen source.old) self.new.held (S.seen source.new)
            × IsGone self.old.order result gone frame.new }
        ensures bound { (length self.old.held ≤ MAX_HELD) × (length self.new.held ≤ MAX_HELD) }
        ensures few { result ≡ Ok Next.Packet → self.old.given < MAX_RECORDS }
        ensures cut { IfReading self.old.state (IsCutShort self.old.given result) ⊤ }
        ensures refused { IfReading self.old.state (IsRefusal self.old.given result) ⊤ }
        ensures memory { result ≡ Err PcapFault.NoMemory →
            IfSome (left_for self.old.held (S.seen source.old).left) (HasRecordHeader self.old.order self.old.given) }
        ensures cause { ReadsByCount (S.seen source.old).faults (S.seen source.new).faults result }
    {
        frame.clear();
        match self.state {
            State::Reading => {}
            State::End => return Ok(Next::End),
            State::Cut(count) => return Ok(Next::Cut(count)),
            State::Spoilt(first) => return Err(PcapFault::Spoilt(first)),
        }
        let result = read_record(&mut self.window, source, self.order, self.given, frame);
        match result {
            Ok(Next::Packet) => self.given += 1,
            Ok(Next::End) => {
                self.state = State::End;
                frame.clear();
            }
            Ok(Next::Cut(count)) => {
                self.state = State::Cut(count);
                frame.clear();
            }
            Err(fault) => {
                self.state = State::Spoilt(fault.number());
                frame.clear();
            }
        }
        result
    }

    // Goes past the next record, where it may be given and all of it is held. The answer says whether it did.
    fn pass_held(&mut self) -> bool
        ensures passed { result ≡ true → HasPassed self.old self.new }
        ensures other { result ≡ false → self.new ≡ self.old }
        ensures bound { (length self.old.held ≤ MAX_HELD) × (length self.new.held ≤ MAX_HELD) }
    {
        let held = self.window.held();
        if self.state != State::Reading || self.given >= MAX_RECORDS || held.len() < RECORD {
            return false;
        }
        let captured = self.order.read_u32(&held[8..]);
        if captured > MAX_CAPTURED || held.len() - RECORD < captured as usize {
            return false;
        }
        self.window.skip(RECORD + captured as usize);
        self.given += 1;
        true
    }

    /// Goes past the next record, and gives none of its bytes. It answers and refuses as [`next`](Reader::next) does,
    /// as often, and leaves the reader as that would. The bytes of a record that is held are not even read; of one
    /// that isn't they are put into a list, which is dropped.
    pub fn pass<S: Source>(&mut self, alloc: Global, source: &mut S) -> Result<Next, PcapFault>
        ensures repeats { Repeats self.old.state result }
        ensures record { (frame : List ℕ)
            × IfReading self.old.state
            (IfSome (left_for self.old.held (S.seen source.old).left) (λ bytes.
            IsAnswer self.old.order self.old.given bytes result frame
            (left_for self.new.held (S.seen source.new).left)))
            (source.new ≡ source.old)
            × (gone : List ℕ)
            × Passes gone self.old.held (S.seen source.old) self.new.held (S.seen source.new)
            × IsGone self.old.order result gone frame }
        ensures reader { IfReading self.old.state
            (self.new ≡ record self.old {
              held = self.new.held;
              given = given_after self.old.given result;
              state = state_after result;
            })
            (self.new ≡ self.old) }
        ensures bound { (length self.old.held ≤ MAX_HELD) × (length self.new.held ≤ MAX_HELD) }
        ensures few { result ≡ Ok Next.Packet → self.old.given < MAX_RECORDS }
        ensures cut { IfReading self.old.state (IsCutShort self.old.given result) ⊤ }
        ensures refused { IfReading self.old.state (IsRefusal self.old.given result) ⊤ }
        ensures memory { result ≡ Err PcapFault.NoMemory →
            IfSome (left_for self.old.held (S.seen source.old).left) (HasRecordHeader self.old.order self.old.given) }
        ensures cause { ReadsByCount (S.seen source.old).faults (S.seen source.new).faults result }
    {
        if self.pass_held() {
            return Ok(Next::Packet);
        }
        let mut frame = Octets::new(alloc);
        self.next(source, &mut frame)
    }

    /// The number of whole records that were given, which is at most [`MAX_RECORDS`].
    pub fn taken(&self) -> u32
        ensures taken { result ≡ self.now.given }
        ensures few { self.now.given ≤ MAX_RECORDS }
    {
        self.given
    }
}
