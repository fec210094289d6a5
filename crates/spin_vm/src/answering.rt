//! What lines come to.

ghost use Rattle.std.specs.Prelude.{◌≡◌, ◌+◌, ◌<◌, ◌≤◌, ◌^◌, None, IfOk, length};
ghost use Rattle.spin_values.specs.First.{first_of};
ghost use Rattle.spin_word.specs.declared.work.Deed.{Deed};
ghost use Rattle.spin_table.specs.SetupOf.{data_of};
ghost use Rattle.spin_table.specs.Soundness.{IsSoundVersion};
ghost use Rattle.spin_proto.specs.declared.reply.Reply.{Reply};
ghost use Rattle.spin_vm.specs.Traces.{trace_checks, region_checks, regions_with, regions_after};
ghost use Rattle.spin_vm.specs.Scripts.{AreReplies};
ghost use Rattle.spin_vm.specs.Spaces.{page_of, look_up, access_came, after_access, came_of};
ghost use Rattle.spin_vm.specs.Spaces.{space_after, said_came, spaces_after, mapped_pages};
ghost use Rattle.spin_vm.specs.Inner.Lines.{regions_of};

use crate::came::Came;
use crate::limits::PAGE_SIZE;
use crate::line::{Request, Statement};
use crate::raises::{frame_given, raise};
use crate::space::Space;
use spin_code::Sincere;
use spin_objects::Catalogue;
use spin_table::{Setup, Version};
use spin_values::NoMemory;
use std::alloc::Global;

// What an access comes to.
fn access(
    alloc: Global,
    setup: &Setup,
    version: &Version,
    number: u64,
    space: &mut Space,
    address: u64,
    write: bool,
) -> Result<Came, NoMemory>
    requires sincere { ⟦<Catalogue as Sincere>⟧.sincere setup.now.catalogue }
    requires sound { IsSoundVersion (data_of setup.now) version.now }
    ensures came { (reply : Deed → Reply) → AreReplies (data_of setup.now) version.now.state reply
        → IfOk result (λ came. came ≡ access_came reply number (page_of address) write
        (look_up space.old (page_of address) write)) }
    ensures space { (reply : Deed → Reply) → AreReplies (data_of setup.now) version.now.state reply
        → IfOk result (λ came. space.new
        ≡ after_access reply number space.old (page_of address) write) }
    ensures regions { IfOk result (λ came. space.new.regions ≡ space.old.regions) }
    ensures pages { IfOk result (λ came. length space.new.pages ≤ length space.old.pages + 1) }
{
    let page = address / PAGE_SIZE;
    let fault = match space.look_up(page, write) {
        Ok(frame) => return Ok(Came::Found(frame)),
        Err(fault) => fault,
    };
    let reply = raise(alloc, setup, version, fault, number, page, write)?;
    let frame = frame_given(fault, &reply);
    space.map(page, frame)?;
    Ok(Came::Faulted(fault, reply, frame))
}

// What a request to a space comes to.
fn asked(
    alloc: Global,
    setup: &Setup,
    version: &Version,
    number: u64,
    space: &mut Space,
    request: &Request,
) -> Result<Option<Came>, NoMemory>
    requires sincere { ⟦<Catalogue as Sincere>⟧.sincere setup.now.catalogue }
    requires sound { IsSoundVersion (data_of setup.now) version.now }
    requires good { first_of (region_checks space.old.regions request.now) ≡ None }
    ensures came { (reply : Deed → Reply) → AreReplies (data_of setup.now) version.now.state reply
        → IfOk result (λ came. came ≡ came_of reply number space.old request.now) }
    ensures space { (reply : Deed → Reply) → AreReplies (data_of setup.now) version.now.state reply
        → IfOk result (λ came. space.new ≡ space_after reply number space.old request.now) }
    ensures regions { IfOk result (λ came. space.new.regions
        ≡ regions_with space.old.regions request.now) }
    ensures pages { IfOk result (λ came. length space.new.pages ≤ length space.old.pages + 1) }
{
    match request {
        Request::Region(region) => {
            space.add(*region)?;
            Ok(None)
        }
        Request::Unmap(page) => Ok(Some(Came::Unmapped(space.unmap(*page)))),
        Request::Access { address, write } => {
            let came = access(alloc, setup, version, number, space, *address, *write)?;
            Ok(Some(came))
        }
    }
}

// What a line comes to, if it is an access or takes a page out.
pub(crate) fn answer(
    alloc: Global,
    setup: &Setup,
    version: &Version,
    spaces: &mut Vec<Space>,
    said: &Statement,
) -> Result<Option<Came>, NoMemory>
    requires sincere { ⟦<Catalogue as Sincere>⟧.sincere setup.now.catalogue }
    requires sound { IsSoundVersion (data_of setup.now) version.now }
    requires good { first_of (trace_checks (regions_of spaces.old.items) said.now) ≡ None }
    ensures came { (reply : Deed → Reply) → AreReplies (data_of setup.now) version.now.state reply
        → IfOk result (λ came. came ≡ said_came reply spaces.old.items said.now) }
    ensures spaces { (reply : Deed → Reply) → AreReplies (data_of setup.now) version.now.state reply
        → IfOk result (λ came. spaces.new.items
        ≡ spaces_after reply spaces.old.items said.now) }
    ensures regions { IfOk result (λ came. regions_of spaces.new.items
        ≡ regions_after (regions_of spaces.old.items) said.now) }
    ensures pages { IfOk result (λ came. mapped_pages spaces.new.items
        ≤ mapped_pages spaces.old.items + 1) }
{
    match said {
        Statement::Space(_) => {
            spaces.push(Space::new(alloc))?;
            Ok(None)
        }
        Statement::At { space, request } => {
            let at = &mut spaces[*space as usize];
            asked(alloc, setup, version, *space, at, request)
        }
    }
}

// How many pages are mapped in all.
pub(crate) fn mapped_pages(spaces: &[Space]) -> usize
    requires { mapped_pages spaces.now < 2 ^ 64 }
    ensures { result ≡ mapped_pages spaces.now }
{
    spaces
        .iter()
        .map(
            |space: &Space| -> usize
                ensures { result ≡ length space.now.pages }
            { space.mapped() },
        )
        .sum()
}
