//! Reading whole scripts.

ghost use Rattle.std.specs.Prelude.{◌≡◌, false, ◌<◌, ◌≤◌, ◌^◌, ◌==◌, [], length, Ok, IfOk};
ghost use Rattle.spin_word.specs.declared.command.TheConstants.{MAX_PLACE};
ghost use Rattle.spin_grammar.specs.declared.limits.TheConstants.{MAX_TEXT};
ghost use Rattle.spin_script.specs.Sections.{is_out_of_order};
ghost use Rattle.spin_script.specs.States.{start, natives_seen, most_live, script_in};
ghost use Rattle.spin_script.specs.Inner.Drafts.{so_far};
ghost use Rattle.spin_script.specs.Inner.Reader.{AddsSaid, GivesSaid, GivesState};
ghost use Rattle.spin_script.specs.Scripts.{cause_number, script_seen, GivesScript};
ghost use Rattle.spin_script.specs.Inner.Reader.{GivesDraft};
ghost use Rattle.spin_script.specs.Soundness.{AreValid, command_lines};
ghost use Rattle.spin_script.specs.Inner.Sound.{IsSound};
ghost use Rattle.spin_script.specs.Segments.{IsOrderly};
ghost use Rattle.spin_grammar.specs.Lines.{LineMeaning, Stands, IsInRange};
ghost use Rattle.spin_script.specs.Canonical.{canonical};
ghost use Rattle.spin_script.specs.RoundTrip.{ComesBack};
ghost use Rattle.spin_script.specs.Language.{Says, head};
ghost use Rattle.spin_script.specs.Declarations.{Declares};
ghost use Rattle.spin_script.specs.Inner.Declaring.{Grows, DeclaresMore, IsDeclared};

use crate::declare::{add_endpoint, add_event, add_modules};
use crate::draft::Draft;
use crate::head::{Found, find_head, section};
use crate::lanes::{add_barrier, add_lane, add_retire};
use crate::rules::{add_authoriser, add_default, add_rule};
use crate::script::{Script, ScriptFault};
use crate::units::{add_guard, add_handler, add_native_guard, add_native_handler};
use spin_code::Sincere;
use spin_grammar::{Cause, Fault, Kind, Lines, MAX_TEXT, Statement, Words, read_line};
use spin_objects::{Catalogue, Natives};
use spin_table::{EventList, MAX_LIVE, Setup};
use spin_values::NoMemory;
use std::alloc::Global;

// Adds a line that was read.
fn add(
    alloc: Global,
    draft: &mut Draft,
    catalogue: &mut Catalogue,
    said: Statement,
    number: u32,
) -> Result<(), Fault>
    requires range { IsInRange said }
    requires sincere { ⟦<Catalogue as Sincere>⟧.sincere catalogue.old }
    ensures sincere { ⟦<Catalogue as Sincere>⟧.sincere catalogue.new }
    ensures natives { catalogue.new.natives ≡ catalogue.old.natives }
    ensures adds { AddsSaid (natives_seen catalogue.old.natives)
        (so_far draft.old catalogue.old) number said result (so_far draft.new catalogue.new) }
    ensures grows { (l : LineMeaning) → Stands said l
        → Grows (natives_seen catalogue.old.natives) catalogue.old.bodies catalogue.old.checks l
        result catalogue.new.bodies catalogue.new.checks }
{
    match said {
        Statement::Modules(modules) => add_modules(draft, modules),
        Statement::Event {
            number,
            owner,
            sig,
            merge,
        } => add_event(alloc, draft, number, owner, sig, merge),
        Statement::Endpoint { number, name } => add_endpoint(draft, number, name),
        Statement::Handler { number, sig, steps } => add_handler(
            draft, catalogue, number, sig, steps,
        ),
        Statement::NativeHandler { number, name } => add_native_handler(
            draft, catalogue, number, name,
        ),
        Statement::Guard { number, sig, test } => add_guard(draft, catalogue, number, sig, test),
        Statement::NativeGuard { number, name } => add_native_guard(draft, catalogue, number, name),
        Statement::Rule { event, rule } => add_rule(draft, catalogue, event, rule),
        Statement::Authoriser { event, name } => add_authoriser(draft, catalogue, event, name),
        Statement::Default { event, handler } => add_default(draft, catalogue, event, handler),
        Statement::Lane { lane, work } => add_lane(draft, number, lane, work),
        Statement::Barrier => add_barrier(alloc, draft),
        Statement::Retire(endpoint) => add_retire(draft, endpoint),
    }
}

// Reads the words of a line of this kind, and adds the line to the script so far.
fn say(
    alloc: Global,
    draft: &mut Draft,
    catalogue: &mut Catalogue,
    words: &mut Words,
    kind: Kind,
    number: u32,
) -> Result<(), Fault>
    requires short { length words.old < 2 ^ 31 }
    requires order { is_out_of_order kind draft.old.section draft.old.begins ≡ false }
    requires begun { (draft.old.version == 0) ≡ false }
    requires sound { IsSound (natives_seen catalogue.old.natives) (so_far draft.old catalogue.old) }
    requires declared { IsDeclared (natives_seen catalogue.old.natives)
        (so_far draft.old catalogue.old) catalogue.old.bodies catalogue.old.checks }
    requires sincere { ⟦<Catalogue as Sincere>⟧.sincere catalogue.old }
    ensures sincere { ⟦<Catalogue as Sincere>⟧.sincere catalogue.new }
    ensures natives { catalogue.new.natives ≡ catalogue.old.natives }
    ensures sound { IfOk result (λ _. IsSound (natives_seen catalogue.old.natives)
        (so_far draft.new catalogue.new)) }
    ensures declared { IfOk result (λ _. IsDeclared (natives_seen catalogue.old.natives)
        (so_far draft.new catalogue.new) catalogue.new.bodies catalogue.new.checks) }
    ensures grows { IfOk result (λ _. DeclaresMore (natives_seen catalogue.old.natives)
        (so_far draft.old catalogue.old) (Ok (Says kind words.old)) catalogue.old.bodies
        catalogue.old.checks catalogue.new.bodies catalogue.new.checks) }
    ensures gives { GivesSaid (natives_seen catalogue.old.natives)
        (so_far draft.old catalogue.old) number kind words.old result
        (so_far draft.new catalogue.new) }
{
    let said = read_line(alloc, words, draft.version, kind)?;
    draft.section = section(kind);
    add(alloc, draft, catalogue, said, number)
}

// Reads a line, and adds it to the script so far.
#[tactic(auto, using(crate::proofs::ScriptReading::line_gives, crate::proofs::ReadLineSoundness::begun_sound))]
fn take_line(
    alloc: Global,
    draft: &mut Draft,
    catalogue: &mut Catalogue,
    line: &[u8],
    number: u32,
) -> Result<(), Fault>
    requires short { length line.now < 2 ^ 30 }
    requires sound { IsSound (natives_seen catalogue.old.natives) (so_far draft.old catalogue.old) }
    requires declared { IsDeclared (natives_seen catalogue.old.natives)
        (so_far draft.old catalogue.old) catalogue.old.bodies catalogue.old.checks }
    requires sincere { ⟦<Catalogue as Sincere>⟧.sincere catalogue.old }
    ensures sincere { ⟦<Catalogue as Sincere>⟧.sincere catalogue.new }
    ensures natives { catalogue.new.natives ≡ catalogue.old.natives }
    ensures sound { IfOk result (λ _. IsSound (natives_seen catalogue.old.natives)
        (so_far draft.new catalogue.new)) }
    ensures declared { IfOk result (λ _. IsDeclared (natives_seen catalogue.old.natives)
        (so_far draft.new catalogue.new) catalogue.new.bodies catalogue.new.checks) }
    ensures grows { IfOk result (λ _. DeclaresMore (natives_seen catalogue.old.natives)
        (so_far draft.old catalogue.old) (head (so_far draft.old catalogue.old) line.now)
        catalogue.old.bodies catalogue.old.checks catalogue.new.bodies catalogue.new.checks) }
    ensures gives { GivesState (natives_seen catalogue.old.natives)
        (so_far draft.old catalogue.old) number line.now result (so_far draft.new catalogue.new) }
{
    let found = find_head(draft, line)?;
    match found {
        Found::Skipped => Ok(()),
        Found::Begins(version) => {
            draft.version = version;
            Ok(())
        }
        Found::Says(kind, mut words) => say(alloc, draft, catalogue, &mut words, kind, number),
    }
}

// The number of a cause.
fn cause_number(cause: Cause) -> u8
    ensures { result ≡ cause_number cause }
{
    cause as u8
}

// The refusal of a line.
fn bad(line: u32, cause: Cause) -> ScriptFault
    ensures { result ≡ ScriptFault.Bad line (cause_number cause) }
{
    ScriptFault::Bad {
        line,
        cause: cause_number(cause),
    }
}

// Reads all lines behind an empty draft.
#[tactic(auto, using(crate::proofs::ScriptReading::comes_on, crate::proofs::ScriptReading::comes_bad, crate::proofs::ScriptReading::comes_end, crate::proofs::ScriptReading::is_script, crate::proofs::DeclaredUnits::start_declared, crate::proofs::TextDeclarations::declares_start, crate::proofs::TextDeclarations::declares_all))]
fn read_lines(
    alloc: Global,
    text: &[u8],
    draft: &mut Draft,
    catalogue: &mut Catalogue,
) -> Result<(), ScriptFault>
    requires short { length text.now ≤ MAX_TEXT }
    requires start { so_far draft.old catalogue.old ≡ start }
    requires bodies { catalogue.old.bodies ≡ [] }
    requires checks { catalogue.old.checks ≡ [] }
    requires sincere { ⟦<Catalogue as Sincere>⟧.sincere catalogue.old }
    ensures sincere { ⟦<Catalogue as Sincere>⟧.sincere catalogue.new }
    ensures natives { catalogue.new.natives ≡ catalogue.old.natives }
    ensures sound { IfOk result (λ _. IsSound (natives_seen catalogue.old.natives)
        (so_far draft.new catalogue.new)) }
    ensures declared { IfOk result (λ _. IsDeclared (natives_seen catalogue.old.natives)
        (so_far draft.new catalogue.new) catalogue.new.bodies catalogue.new.checks) }
    ensures said { IfOk result (λ _. Declares (natives_seen catalogue.old.natives) text.now
        catalogue.new.bodies catalogue.new.checks) }
    ensures gives { GivesDraft (natives_seen catalogue.old.natives) text.now result
        (so_far draft.new catalogue.new) }
{
    let mut lines = Lines::new(text);
    let mut number: u32 = 0;
    while let Some(line) = lines.next() {
        number += 1;
        match take_line(alloc, draft, catalogue, line, number) {
            Ok(()) => {}
            Err(Fault::Bad(cause)) => return Err(bad(number, cause)),
            Err(Fault::NoMemory) => return Err(ScriptFault::NoMemory),
        }
    }
    Ok(())
}

/// The greatest number of live bindings of an event, in a script of version 1 or 2. One of version 3 may have
/// [`MAX_LIVE`].
pub const MAX_EARLY_LIVE: u16 = 32;

// The greatest number of live bindings of an event, in a script of this version.
fn most_live(version: u8) -> u16
    ensures { result ≡ most_live version }
{
    if version == 3 {
        MAX_LIVE
    } else {
        MAX_EARLY_LIVE
    }
}

// The script of a sound draft.
fn build(draft: Draft, catalogue: Catalogue) -> Result<Script, NoMemory>
    requires sound { IsSound (natives_seen catalogue.natives) (so_far draft catalogue) }
    requires sincere { ⟦<Catalogue as Sincere>⟧.sincere catalogue }
    ensures catalogue { IfOk result (λ s. s.setup.catalogue ≡ catalogue) }
    ensures sincere { IfOk result (λ s. ⟦<Catalogue as Sincere>⟧.sincere s.setup.catalogue) }
    ensures script { IfOk result (λ s. script_seen s
        ≡ script_in (natives_seen catalogue.natives) (so_far draft catalogue)) }
{
    let mut segments = draft.ended;
    segments.push(draft.segment)?;
    let live = most_live(draft.version);
    let events = EventList::from_vec(draft.events);
    match Setup::build(draft.modules, live, events, catalogue) {
        Ok(setup) => Ok(Script {
            setup,
            version: draft.version,
            endpoints: draft.endpoints,
            lanes: draft.lanes,
            segments,
        }),
        Err(_) => unreachable!(),
    }
}

/// Reads a script, in which these natives may be named, or finds its first bad line and why it is bad.
///
/// Unless memory runs out, [`ScriptFault::Bad`] comes exactly where the text isn't in the language: its line is the
/// first that can't stand behind the lines before it, counted from 1, and its cause the number of the first [`Cause`]
/// that applies there, or 0 and 1 where the text is over [`MAX_TEXT`]. Of a script each command is valid, and at most
/// 4,096 lines are commands. It is orderly: the numbers of its lines rise; it has 1 to 8 lanes, each line is of one of
/// them and its command of that lane; it has at most 65,536 deeds; it has at most 64 endpoints, their names differ, and
/// those that are retired or sent to are there. After a refusal the natives are dropped. It takes time and memory
/// linear in the text, and no stack that grows with it.
///
/// Of each handler and guard line of the text, in order, the script has the native of the name that it gives, or else
/// what it codes itself.
///
/// What [`write_script`](crate::write_script) writes of the script is read again as that script, but for the numbers of
/// its lines, unless it is over [`MAX_TEXT`].
pub fn read_script(alloc: Global, text: &[u8], natives: Natives) -> Result<Script, ScriptFault>
    requires sincere { ⟦<Natives as Sincere>⟧.sincere natives }
    ensures script { GivesScript (natives_seen natives) text.now result }
    ensures natives { IfOk result (λ s. s.setup.catalogue.natives ≡ natives) }
    ensures sincere { IfOk result (λ s. ⟦<Catalogue as Sincere>⟧.sincere s.setup.catalogue) }
    ensures declared { IfOk result (λ s. Declares (natives_seen natives) text.now
        s.setup.catalogue.bodies s.setup.catalogue.checks) }
    ensures valid { IfOk result (λ s. AreValid s.segments) }
    ensures few { IfOk result (λ s. command_lines s.segments ≤ MAX_PLACE) }
    ensures orderly { IfOk result (λ s. IsOrderly (script_seen s)) }
    ensures back { IfOk result
        (λ s. ComesBack (natives_seen natives) (canonical s) (script_seen s)) }
{
    if text.len() > MAX_TEXT {
        return Err(bad(0, Cause::TooLarge));
    }
    let mut draft = Draft::new(alloc);
    let mut catalogue = Catalogue::new(alloc, natives);
    read_lines(alloc, text, &mut draft, &mut catalogue)?;
    if draft.version == 0 {
        return Err(bad(1, Cause::Version));
    }
    Ok(build(draft, catalogue)?)
}
