//! The jobs that the reply to a raise leaves.

ghost use Rattle.std.specs.Prelude.{◌≡◌, MatchResult};
ghost use Rattle.spin_table.specs.SetupOf.{data_of};
ghost use Rattle.spin_c.specs.Jobs.{DoesJob, IsWellLeft};
ghost use Rattle.spin_c.specs.Inner.JobReplies.{IsJobAt, IsNoJobAt};

use crate::ask::Outcome;
use crate::kept::Kept;
use crate::trail::reply_told;
use spin_code::Sincere;
use spin_objects::Catalogue;
use spin_proto::{Reply, job_path};
use spin_seat::Hub;
use spin_table::Setup;
use spin_values::NoMemory;
use std::alloc::Global;

impl Kept {
    // What the job at an index comes to on the version that the raise pinned, and the place of that; or why it isn't done.
    fn job_reply(&self, alloc: Global, setup: &Setup, index: u64) -> Result<(u16, Reply), Outcome>
        requires sincere { ⟦<Catalogue as Sincere>⟧.sincere setup.now.catalogue }
        requires well { IsWellLeft (data_of setup.now) self.now }
        ensures { MatchResult result
            (λ done. IsJobAt (data_of setup.now) self.now index done.0 done.1)
            (λ why. IsNoJobAt self.now index why) }
    {
        let Some(calls) = self.calls() else {
            return Err(Outcome::NoReply);
        };
        let Some(call) = calls.get(index as usize) else {
            return Err(Outcome::NoJob);
        };
        let Some(version) = &self.pinned else {
            unreachable!()
        };
        match job_path(alloc, version, setup, call) {
            Ok(reply) => Ok((version.place(), reply)),
            Err(NoMemory) => Err(Outcome::NoMemory),
        }
    }

    // Does the job at an index of those that the reply leaves, and keeps its own reply beside.
    pub(crate) fn job(&mut self, alloc: Global, hub: &Hub, index: u64) -> Outcome
        requires sincere { ⟦<Catalogue as Sincere>⟧.sincere hub.now.setup.catalogue }
        requires well { IsWellLeft (data_of hub.now.setup) self.old }
        ensures well { IsWellLeft (data_of hub.now.setup) self.new }
        ensures does { DoesJob (data_of hub.now.setup) self.old index self.new result }
    {
        match self.job_reply(alloc, hub.setup(), index) {
            Ok((place, reply)) => {
                let told = reply_told(&reply);
                self.job = Some(reply);
                Outcome::Raised { place, told }
            }
            Err(why) => why,
        }
    }
}
