//! The words of what a deed or a job came to.

ghost use Rattle.std.specs.Prelude.{◌≡◌, ◌++◌, ◌∷◌, [], decimal, codes, take, length, OnOk, OnErr};
ghost use Rattle.std.specs.List.{flat_map};
ghost use Rattle.spin_text.specs.Words.{spaced};
ghost use Rattle.spin_report.specs.Replies.{answer_words, fault_word, step_words, reply_words};

use spin_headers::HeaderFault;
use spin_proto::{Reply, ReplyView, Step};
use spin_raise::Answer;
use spin_text::{put_number, put_word};
use spin_values::{NoMemory, Octets};

#[tactic(auto, using(spin_text::proofs::Kept::kept_same, spin_text::proofs::Kept::kept_more, spin_text::proofs::Kept::kept_on))]
fn put_answer(out: &mut Octets, answer: Answer) -> Result<(), NoMemory>
    ensures ok { OnOk result (out.new ≡ out.old ++ spaced (answer_words answer)) }
    ensures err { OnErr result (take (length out.old) out.new ≡ out.old) }
{
    match answer {
        Answer::Value(value) => {
            out.extend_from_slice(b" value")?;
            put_number(out, value)
        }
        Answer::Done => out.extend_from_slice(b" done"),
        Answer::Default(None) => out.extend_from_slice(b" default"),
        Answer::Default(Some(value)) => {
            out.extend_from_slice(b" default")?;
            put_number(out, value)
        }
        Answer::NoHandler => out.extend_from_slice(b" nohandler"),
    }
}

fn fault_word(fault: HeaderFault) -> &'static [u8]
    ensures { result.now ≡ fault_word fault }
{
    match fault {
        HeaderFault::Short => b"short",
        HeaderFault::Version => b"version",
        HeaderFault::HeaderLength => b"header_length",
        HeaderFault::TotalLength => b"total_length",
        HeaderFault::Checksum => b"checksum",
        HeaderFault::Fragment => b"fragment",
        HeaderFault::UdpLength => b"udp_length",
    }
}

// Appends a word and two numbers.
#[tactic(auto, using(spin_text::proofs::Kept::kept_same, spin_text::proofs::Kept::kept_more, spin_text::proofs::Kept::kept_on))]
fn put_pair(out: &mut Octets, word: &[u8], first: u64, second: u64) -> Result<(), NoMemory>
    ensures ok { let words = word.now ∷ decimal first ∷ decimal second ∷ [] in
        OnOk result (out.new ≡ out.old ++ spaced words) }
    ensures err { OnErr result (take (length out.old) out.new ≡ out.old) }
{
    put_word(out, word)?;
    put_number(out, first)?;
    put_number(out, second)
}

#[tactic(auto, using(spin_text::proofs::Kept::kept_same, spin_text::proofs::Kept::kept_more, spin_text::proofs::Kept::kept_on))]
fn put_step(out: &mut Octets, step: &Step) -> Result<(), NoMemory>
    ensures ok { OnOk result (out.new ≡ out.old ++ spaced (step_words step.now)) }
    ensures err { OnErr result (take (length out.old) out.new ≡ out.old) }
{
    match step {
        Step::Run { event, number } => put_pair(out, b"run", u64::from(*event), u64::from(*number)),
        Step::Result(value) => {
            out.extend_from_slice(b" result")?;
            put_number(out, *value)
        }
        Step::Send { endpoint, bytes } => {
            put_pair(out, b"send", u64::from(*endpoint), bytes.len() as u64)
        }
        Step::Up(event) => {
            out.extend_from_slice(b" up")?;
            put_number(out, u64::from(*event))
        }
        Step::Back(answer) => {
            out.extend_from_slice(b" back")?;
            put_answer(out, *answer)
        }
        Step::Dropped(fault) => {
            out.extend_from_slice(b" drop")?;
            put_word(out, fault_word(*fault))
        }
        Step::Job { event, number } => put_pair(out, b"job", u64::from(*event), u64::from(*number)),
    }
}

#[tactic(auto, using(spin_text::proofs::Kept::kept_same, spin_text::proofs::Kept::kept_more, spin_text::proofs::Kept::kept_on))]
fn put_trace(out: &mut Octets, trace: &[Step]) -> Result<(), NoMemory>
    ensures ok { OnOk result (out.new ≡ out.old ++ spaced (flat_map step_words trace.now)) }
    ensures err { OnErr result (take (length out.old) out.new ≡ out.old) }
{
    for step in trace {
        put_step(out, step)?;
    }
    Ok(())
}

// Appends the steps of a deed or a job that was done, and its answer.
#[tactic(auto, using(spin_text::proofs::Kept::kept_same, spin_text::proofs::Kept::kept_more, spin_text::proofs::Kept::kept_on))]
fn put_ran(out: &mut Octets, trace: &[Step], answer: Answer) -> Result<(), NoMemory>
    ensures ok { OnOk result (out.new
        ≡ out.old ++ spaced (flat_map step_words trace.now ++ (codes "=" ∷ answer_words answer))) }
    ensures err { OnErr result (take (length out.old) out.new ≡ out.old) }
{
    put_trace(out, trace)?;
    out.extend_from_slice(b" =")?;
    put_answer(out, answer)
}

// Appends what a deed or a job came to.
#[tactic(auto, using(spin_text::proofs::Kept::kept_same, spin_text::proofs::Kept::kept_more, spin_text::proofs::Kept::kept_on))]
pub(crate) fn put_reply(out: &mut Octets, reply: &Reply) -> Result<(), NoMemory>
    ensures ok { OnOk result (out.new ≡ out.old ++ spaced (reply_words reply.now)) }
    ensures err { OnErr result (take (length out.old) out.new ≡ out.old) }
{
    match reply {
        Reply::Ran { answer, trace, .. } => put_ran(out, trace.as_slice(), *answer),
        Reply::Queued(_) => out.extend_from_slice(b" queued"),
        Reply::UnknownEvent => out.extend_from_slice(b" refused 1 unknown_event"),
        Reply::WrongArgs => out.extend_from_slice(b" refused 2 wrong_args"),
        Reply::Spent => out.extend_from_slice(b" refused 3 spent"),
    }
}

// Appends what a deed came to whose reply is lent.
#[tactic(auto, using(spin_text::proofs::Kept::kept_same, spin_text::proofs::Kept::kept_more, spin_text::proofs::Kept::kept_on))]
pub(crate) fn put_reply_view(out: &mut Octets, reply: &ReplyView<'_>) -> Result<(), NoMemory>
    ensures ok { OnOk result (out.new ≡ out.old ++ spaced (reply_words reply.now)) }
    ensures err { OnErr result (take (length out.old) out.new ≡ out.old) }
{
    match reply.ending {
        Ok(answer) => put_ran(out, reply.trace, answer),
        Err(whole) => put_reply(out, whole),
    }
}

/// Appends what a deed or a job came to, as its line has it behind what was asked: its steps, `=` and its answer, or
/// the words of its refusal, with a space before each word. After want of memory `out` is unchanged. It takes time
/// linear in the words.
pub fn reply_text(reply: &Reply, out: &mut Octets) -> Result<(), NoMemory>
    ensures ok { OnOk result (out.new ≡ out.old ++ spaced (reply_words reply.now)) }
    ensures err { OnErr result (out.new ≡ out.old) }
{
    let mut words = Octets::new(out.allocator());
    put_reply(&mut words, reply)?;
    out.append(&mut words)
}
