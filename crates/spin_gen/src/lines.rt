//! The lines of lanes.

ghost use Rattle.std.specs.Prelude.{◌≡◌, ◌<◌, ◌+◌, ◌++◌, ◌∷◌, [], OnOk, codes, decimal};
ghost use Rattle.spin_text.specs.Words.{spaced, line_of};
ghost use Rattle.spin_grammar.specs.Forms.{place_word};
ghost use Rattle.spin_script.specs.Canonical.{line_text};
ghost use Rattle.spin_gen.specs.Numbers.{state_after, drawn};
ghost use Rattle.spin_gen.specs.Drafts as drafts;
ghost use Rattle.spin_gen.specs.Drafts.{draws_of, drawn_place, install_line, raise_line, packet_line, lane_draft};

use crate::draws::Draws;
use spin_text::{end_line, put_number, put_word};
use spin_values::{NoMemory, Octets};

// Of a lane's lines in a segment, each that has a multiple of this number is an install.
const INSTALL_EACH: u16 = 20;

// The event of frames.
const FRAMES: u64 = 8;

// How many records each lane takes of the capture.
const PACKETS: u64 = 125;

// The number of places that are drawn from.
const PLACES: u64 = 3;

// The number of handlers that are drawn from, those of words.
const HANDLERS: u64 = 4;

// The number of guards that are drawn from, those of words and none.
const GUARDS: u64 = 5;

// Each value that is drawn lies below this one.
const VALUES: u64 = 65_536;

// The word of the place that was drawn.
#[tactic(auto, unfolding(crate::specs::Drafts::drawn_place))]
fn place_word(place: u64) -> &'static [u8]
    requires { place < 3 }
    ensures { result.now ≡ place_word (drawn_place place) }
{
    match place {
        0 => b"free",
        1 => b"first",
        _ => b"last",
    }
}

// What is drawn for an install.
#[derive(Drop)]
struct Choice {
    place: u64,
    handler: u64,
    guard: u64,
}

// Draws the place, the handler and the guard of an install, in this order.
#[tactic(auto, using(crate::proofs::DrawLemmas::drawn_second, crate::proofs::DrawLemmas::drawn_third, crate::proofs::DrawLemmas::after_three))]
fn choose(draws: &mut Draws) -> Choice
    ensures place { result.place ≡ drawn 3 0 draws.old }
    ensures handler { result.handler ≡ 1 + drawn 4 1 draws.old }
    ensures guard { result.guard ≡ drawn 5 2 draws.old }
    ensures within { result.place < 3 }
    ensures state { draws.new ≡ state_after 3 draws.old }
{
    let place = draws.below(PLACES);
    let handler = 1 + draws.below(HANDLERS);
    let guard = draws.below(GUARDS);
    Choice {
        place,
        handler,
        guard,
    }
}

// Appends the front of a lane's line: what is asked, and the event of the lane's number.
fn put_front(out: &mut Octets, lane: u8, asked: &[u8]) -> Result<(), NoMemory>
    ensures { OnOk result (out.new ≡ out.old
        ++ line_of (codes "lane" ∷ decimal lane ∷ asked.now ∷ decimal lane ∷ [])) }
{
    out.extend_from_slice(b"lane")?;
    put_number(out, u64::from(lane))?;
    put_word(out, asked)?;
    put_number(out, u64::from(lane))
}

// Appends what was drawn for an install, and that it is plain.
fn put_choice(out: &mut Octets, choice: &Choice) -> Result<(), NoMemory>
    requires { choice.now.place < 3 }
    ensures { OnOk result (out.new ≡ out.old
        ++ spaced (decimal choice.now.handler ∷ decimal choice.now.guard
        ∷ place_word (drawn_place choice.now.place) ∷ codes "plain" ∷ [])) }
{
    put_number(out, choice.handler)?;
    put_number(out, choice.guard)?;
    put_word(out, place_word(choice.place))?;
    put_word(out, b"plain")
}

// Appends an install on the lane's own event.
fn put_install(out: &mut Octets, lane: u8, choice: &Choice) -> Result<(), NoMemory>
    requires { choice.now.place < 3 }
    ensures { let place = drawn_place choice.now.place in
        OnOk result (out.new ≡ out.old
        ++ line_text (install_line lane lane choice.now.handler choice.now.guard place)) }
{
    put_front(out, lane, b"install")?;
    put_number(out, 0)?;
    put_choice(out, choice)?;
    end_line(out)
}

// Appends a raise of the lane's own event.
fn put_raise(out: &mut Octets, lane: u8, value: u64) -> Result<(), NoMemory>
    ensures { OnOk result (out.new ≡ out.old ++ line_text (raise_line lane value)) }
{
    put_front(out, lane, b"raise")?;
    put_number(out, value)?;
    end_line(out)
}

// Appends the line of a lane that has this number among its lines in a segment, counted from 0.
pub(crate) fn put_line(
    out: &mut Octets,
    draws: &mut Draws,
    lane: u8,
    number: u16,
) -> Result<(), NoMemory>
    ensures text { OnOk result
        (out.new ≡ out.old ++ line_text (drafts.line_of draws.old (lane_draft lane number))) }
    ensures state { OnOk result
        (draws.new ≡ state_after (draws_of (lane_draft lane number)) draws.old) }
{
    if number % INSTALL_EACH == 0 {
        let choice = choose(draws);
        put_install(out, lane, &choice)
    } else {
        put_raise(out, lane, draws.below(VALUES))
    }
}

// Appends a line by which a lane takes records of the capture.
pub(crate) fn put_packets(out: &mut Octets, lane: u8) -> Result<(), NoMemory>
    ensures { OnOk result (out.new ≡ out.old ++ line_text (packet_line lane)) }
{
    out.extend_from_slice(b"lane")?;
    put_number(out, u64::from(lane))?;
    put_word(out, b"packet")?;
    put_number(out, FRAMES)?;
    put_number(out, PACKETS)?;
    end_line(out)
}
