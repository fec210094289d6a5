//! The trace so far.

ghost use Rattle.std.specs.Prelude.{◌≡◌, ◌<◌, length, Some, None, OnOk, OnErr, Ok};
ghost use Rattle.spin_values.specs.First.{first_of};
ghost use Rattle.spin_vm.specs.Traces as specs;
ghost use Rattle.spin_vm.specs.Traces.{trace_checks, region_checks, regions_after, with_line, start};

use crate::cause::TraceCause;
use crate::limits::{LAST_SPACE, MAX_REGIONS, PAGES};
use crate::line::{Region, Request, Statement, Trace, TraceLine};
use crate::regions::Regions;
use spin_values::NoMemory;
use std::alloc::Global;
use std::marker::Model;

// The trace so far: whether its first line stands, its spaces, and its other lines.
#[derive(Drop)]
pub(crate) struct Draft {
    pub(crate) begun: bool,
    spaces: Vec<Regions>,
    lines: Trace,
}

impl Model for Draft {
    ghost use Rattle.spin_vm.specs.Traces.{TraceState};

    ghost Value = { TraceState };

    ghost view = { λ s. record { begun = s.begun; spaces = s.spaces.items; lines = s.lines } };
}

fn is_bad_region(regions: &Regions, region: &Region) -> bool
    ensures { result ≡ specs.is_bad_region regions.now region.now }
{
    if region.pages == 0 || region.start > PAGES || region.pages > PAGES - region.start {
        return true;
    }
    regions.have_some(region.start, region.start + region.pages)
}

// Why a region can't be added to these, if it can't.
fn region_cause(regions: &Regions, request: &Request) -> Option<TraceCause>
    ensures { result ≡ first_of (region_checks regions.now request.now) }
{
    let Request::Region(region) = request else {
        return None;
    };
    if is_bad_region(regions, region) {
        return Some(TraceCause::Region);
    }
    if regions.len() >= MAX_REGIONS {
        return Some(TraceCause::Regions);
    }
    None
}

impl Draft {
    // No line stands.
    pub(crate) fn new(alloc: Global) -> Draft
        ensures { result ≡ start }
    {
        Draft {
            begun: false,
            spaces: Vec::new(alloc),
            lines: Trace::new(alloc),
        }
    }

    // Why a line can't stand here, if it can't.
    pub(crate) fn cause(&self, said: &Statement) -> Option<TraceCause>
        ensures { result ≡ first_of (trace_checks self.now.spaces said.now) }
    {
        match said {
            Statement::Space(space) => {
                if *space != self.spaces.len() as u64 || *space > LAST_SPACE {
                    return Some(TraceCause::Next);
                }
                None
            }
            Statement::At { space, request } => {
                if *space >= self.spaces.len() as u64 {
                    return Some(TraceCause::Undeclared);
                }
                region_cause(&self.spaces[*space as usize], request)
            }
        }
    }

    // Adds a line that can stand here to the spaces.
    #[tactic(auto, using(crate::proofs::SpaceRegions::keeps))]
    fn add_to_spaces(&mut self, alloc: Global, said: &Statement) -> Result<(), NoMemory>
        requires { first_of (trace_checks self.old.spaces said.now) ≡ None }
        ensures { OnOk result (self.new
            ≡ record self.old { spaces = regions_after self.old.spaces said.now }) }
    {
        match said {
            Statement::Space(_) => {
                self.spaces.push(Regions::new(alloc))?;
                Ok(())
            }
            Statement::At { space, request } => match request {
                Request::Region(region) => self.spaces[*space as usize].insert(*region),
                Request::Unmap(_) | Request::Access { .. } => Ok(()),
            },
        }
    }

    // Adds a line that can stand here.
    pub(crate) fn add(
        &mut self,
        alloc: Global,
        number: u32,
        said: Statement,
    ) -> Result<(), NoMemory>
        requires { first_of (trace_checks self.old.spaces said) ≡ None }
        ensures { OnOk result (self.new ≡ with_line self.old number said) }
    {
        self.add_to_spaces(alloc, &said)?;
        self.lines.push(TraceLine { number, said })
    }

    // The lines.
    pub(crate) fn into_lines(self) -> Trace
        ensures { result ≡ self.lines }
    {
        self.lines
    }
}
