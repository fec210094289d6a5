//! Raises into a buffer that is lent, and the version on which a host raises by itself.

ghost use Rattle.std.specs.Prelude.{◌≡◌, IfOk, OnOk, OnErr, None, All, length};
ghost use Rattle.std.specs.Arc.{arc_value};
ghost use Rattle.spin_log.specs.Pens.{IsSamePen};
ghost use Rattle.spin_table.specs.SetupOf.{data_of};
ghost use Rattle.spin_proto.specs.Replies.{BelongsTo, calls_left};
ghost use Rattle.spin_seat.specs.Seats.{IsSeat, version_of};
ghost use Rattle.spin_seat.specs.Places.{place_past};
ghost use Rattle.spin_seat.specs.Calls.{AddsAtMostAPin, GivesFrom, ReadsToPin, reply_answer};

use crate::hub::Hub;
use crate::seat::Seat;
use spin_code::Sincere;
use spin_objects::Catalogue;
use spin_proto::{Deed, ReplyBuffer, path_into};
use spin_table::Version;
use spin_values::NoMemory;
use std::alloc::Global;
use std::marker::Brand;
use std::sync::Arc;
use std::sync::ledger::Blank;

impl Seat {
    /// Does the deed as [`Seat::raise`] does, puts the reply into the buffer, and answers its place. The version of
    /// that place is the seat's until its next call: [`Seat::version`] shares it, for whoever does the jobs.
    ///
    /// After `NoMemory` nothing is known of the buffer's reply; of the seat what is known after `raise`. It costs what
    /// `raise` does, less the memory: where the front is whole, a raise of words takes none once the buffer has room.
    pub fn raise_into(
        &mut self,
        alloc: Global,
        hub: &Hub,
        deed: &Deed,
        buffer: &mut ReplyBuffer,
    ) -> Result<u16, NoMemory>
        requires sincere { ⟦<Catalogue as Sincere>⟧.sincere hub.now.setup.catalogue }
        requires log { self.old.pen.log ≡ hub.now.log.id }
        requires seat { IsSeat (data_of hub.now.setup) self.old }
        ensures seat { IsSeat (data_of hub.now.setup) self.new }
        ensures first { self.new.base ≡ self.old.base }
        ensures same { IsSamePen self.old.pen self.new.pen }
        ensures answer { let d = data_of hub.now.setup in
            let first = self.old.base in
            let pen = self.old.pen in
            IfOk result (λ place. GivesFrom d first pen (reply_answer pen.lane deed.now place buffer.new) self.new.pen) }
        ensures whole { OnOk result (self.new.pending ≡ None) }
        ensures calls { OnOk result (All (BelongsTo self.new.state) (calls_left buffer.new)) }
        ensures err { OnErr result (AddsAtMostAPin self.old.pen self.new.pen) }
    {
        self.pin_counted::<Brand>(alloc, hub, Blank::new(1))?;
        let place = self.place();
        path_into(alloc, &self.version, &hub.setup, deed, buffer)?;
        Ok(place)
    }

    /// Reads on as [`Seat::raise`] does, until a load finds no next row, which is a pin of that place, raises nothing, and
    /// answers the place. The version of that place is the seat's until its next call: [`Seat::version`] shares it.
    ///
    /// After `NoMemory` the seat may have read on, and may have one pin more; the next call goes on from there. Where the
    /// front is whole it costs one atomic load, and takes no memory.
    pub fn pin_version(&mut self, alloc: Global, hub: &Hub) -> Result<u16, NoMemory>
        requires sincere { ⟦<Catalogue as Sincere>⟧.sincere hub.now.setup.catalogue }
        requires log { self.old.pen.log ≡ hub.now.log.id }
        requires seat { IsSeat (data_of hub.now.setup) self.old }
        ensures seat { IsSeat (data_of hub.now.setup) self.new }
        ensures first { self.new.base ≡ self.old.base }
        ensures same { IsSamePen self.old.pen self.new.pen }
        ensures pinned { OnOk result (ReadsToPin self.old.pen self.new.pen) }
        ensures place { IfOk result (λ place. place ≡ place_past self.old.base.place (length self.new.pen.front)) }
        ensures whole { OnOk result (self.new.pending ≡ None) }
        ensures err { OnErr result (AddsAtMostAPin self.old.pen self.new.pen) }
    {
        self.pin_counted::<Brand>(alloc, hub, Blank::new(1))?;
        Ok(self.place())
    }

    /// One more owner of the seat's version. It takes no memory.
    pub fn version(&self) -> Result<Arc<Version>, NoMemory>
        ensures { IfOk result (λ version. arc_value version ≡ version_of self.now) }
    {
        Ok(Arc::try_clone(&self.version)?)
    }
}
