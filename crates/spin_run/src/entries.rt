//! The entries that lanes keep, taken out as one list.

ghost use Rattle.std.specs.Prelude.{◌≡◌, ◌++◌, ℕ, List, [], map, IfOk, OnOk};
ghost use Rattle.std.specs.List.{flat_map};
ghost use Rattle.std.specs.Option.{option_map};
ghost use Rattle.atomic_table.specs.Seated.{TableId};
ghost use Rattle.spin_table.specs.Setups.{SetupData};
ghost use Rattle.spin_report.specs.declared.entry.Entry.{Entry};
ghost use Rattle.spin_run.specs.Kept.{AreKept, kept_of, with_none_kept};
ghost use Rattle.spin_run.specs.Segments.{AreReady};

use crate::lanes::Lanes;
use spin_report::Entries;
use spin_values::NoMemory;
use std::alloc::Global;

impl Lanes {
    /// Takes the entries out that the lanes keep, and puts them into the order of the history: by place, at one place the
    /// accepted command first, and then by lane, line and part. What was kept since entries were last taken are those of
    /// one segment, where one was run: then they are just the entries whose lines, sends and marks the segment's
    /// [`Woven`](crate::Woven) has. The lanes are else as before, and keep on. After want of memory some entries are lost.
    pub fn take_entries(&mut self, alloc: Global) -> Result<Entries, NoMemory>
        ensures entries { (entries : List Entry) → AreKept self.old entries
            → IfOk result (λ taken. taken ≡ entries) }
        ensures lanes { OnOk result (self.new ≡ map with_none_kept self.old) }
        ensures ready { (d : SetupData) (log : TableId) (count : ℕ)
            → AreReady d log count self.old → OnOk result (AreReady d log count self.new) }
    {
        let entries = self.gather_entries(alloc)?;
        let mut entries = entries.into_vec();
        entries.sort_by_key(|entry| entry.moment())?;
        Ok(Entries::from_vec(entries))
    }

    // The entries that are kept, lane after lane.
    fn gather_entries(&mut self, alloc: Global) -> Result<Entries, NoMemory>
        ensures entries { IfOk result (λ taken. taken ≡ flat_map (λ lane. kept_of lane.entries) self.old) }
        ensures lanes { OnOk result (self.new ≡ map with_none_kept self.old) }
    {
        let mut all = Entries::new(alloc);
        for lane in self.items.iter_mut() {
            take_kept(&mut all, &mut lane.entries)?;
        }
        Ok(all)
    }
}

// Moves the entries that are kept behind the others.
fn take_kept(all: &mut Entries, own: &mut Option<Entries>) -> Result<(), NoMemory>
    ensures { OnOk result ((all.new ≡ all.old ++ kept_of own.old) × (own.new ≡ option_map (λ _. []) own.old)) }
{
    match own {
        Some(own) => all.append(own),
        None => Ok(()),
    }
}
