//! The words of the command line.

ghost use Rattle.std.specs.Prelude.{◌≡◌, [], Some, IfOk, IfSome, IfNone, map, codes, is_some, true, false};
ghost use Rattle.std.specs.List.{All};
ghost use Rattle.clap.specs.Words.{app_of, rule_of, rows_of, found_of, first_of, fault_of};
ghost use Rattle.clap.specs.Words.{subcommand_of, subcommand_rows_of};
ghost use Rattle.spin_args.specs.Inner.Parsing.{app, needed, asked_by, HasRequired};
ghost use Rattle.spin_args.specs.Words.{IsPlain, IsAsked};

use clap::error::ErrorKind;
use clap::{Arg, ArgMatches, Command};
use spin_grammar::number_of;
use spin_values::{NoMemory, Text};
use std::alloc::Global;

/// What the words ask for.
#[derive(Debug, Drop)]
pub enum Asked {
    /// `run SCRIPT [PACKETS]`.
    Run {
        /// The name of the script.
        script: Text,
        /// The name of the capture, if one is named.
        packets: Option<Text>,
    },
    /// `gen NUMBER`.
    Gen {
        /// The number.
        number: u64,
    },
    /// `check SCRIPT REPORT [PACKETS]`.
    Check {
        /// The name of the script.
        script: Text,
        /// The name of the report.
        report: Text,
        /// The name of the capture, if one is named.
        packets: Option<Text>,
    },
    /// `join SCRIPT PACKETS`.
    Join {
        /// The name of the script.
        script: Text,
        /// The name of the capture.
        packets: Text,
    },
    /// `vm SCRIPT TRACE`.
    Vm {
        /// The name of the script.
        script: Text,
        /// The name of the trace.
        trace: Text,
    },
}

// The word as text, where it is UTF-8, isn't empty and doesn't begin with `-`.
fn plain_word(word: &[u8]) -> Option<&str>
    ensures found { IfSome result (λ text. (text.now ≡ word.now) × IsPlain word.now) }
    ensures none { IfNone result (IsPlain word.now → ⊥) }
{
    if word.is_empty() || word[0] == b'-' {
        return None;
    }
    std::str::from_utf8(word).ok()
}

// The words as text, where each is plain.
fn plain_words(alloc: Global, words: &[Text]) -> Result<Option<Vec<&str>>, NoMemory>
    ensures found { IfOk result (λ plain. IfSome plain
        (λ texts. (map (λ text. text.now) texts.items ≡ words.now) × All IsPlain words.now)) }
    ensures none { IfOk result (λ plain. IfNone plain (All IsPlain words.now → ⊥)) }
{
    let mut plain = Vec::new(alloc);
    for word in words {
        let Some(text) = plain_word(word.as_slice()) else {
            return Ok(None);
        };
        plain.push(text)?;
    }
    Ok(Some(plain))
}

// A positional argument that has to be given.
fn required<'a>(alloc: Global, id: &'a str) -> Arg<'a>
    ensures { (rule_of result ≡ needed id.entry.now) × (result.global ≡ false) }
{
    Arg::new(alloc, id).required(true)
}

// The command, with a subcommand for each form.
fn command<'a>(alloc: Global) -> Result<Command<'a>, NoMemory>
    ensures { IfOk result (λ command. app_of command ≡ app) }
{
    let run = Command::new(alloc, "run")
        .arg(required(alloc, "script"))?
        .arg(Arg::new(alloc, "packets"))?;
    let generate = Command::new(alloc, "gen").arg(required(alloc, "number"))?;
    let check = Command::new(alloc, "check")
        .arg(required(alloc, "script"))?
        .arg(required(alloc, "report"))?
        .arg(Arg::new(alloc, "packets"))?;
    let join = Command::new(alloc, "join")
        .arg(required(alloc, "script"))?
        .arg(required(alloc, "packets"))?;
    let vm = Command::new(alloc, "vm")
        .arg(required(alloc, "script"))?
        .arg(required(alloc, "trace"))?;
    let spin = Command::new(alloc, "spin")
        .no_binary_name(true)
        .disable_help_flag(true)
        .disable_help_subcommand(true)
        .subcommand_required(true)
        .subcommand(run)?
        .subcommand(generate)?
        .subcommand(check)?
        .subcommand(join)?
        .subcommand(vm)?;
    Ok(spin)
}

// The matches of the words, or none exactly where they don't fit the command.
fn parse<'a>(alloc: Global, words: &'a [&'a str]) -> Result<Option<ArgMatches<'a>>, NoMemory>
    ensures found { IfOk result (λ parsed. IfSome parsed (λ matches.
        (fault_of app (map (λ text. text.now) words.now) ≡ [])
        × (subcommand_rows_of matches ≡ subcommand_of app (map (λ text. text.now) words.now)))) }
    ensures none { IfOk result (λ parsed. IfNone parsed
        (fault_of app (map (λ text. text.now) words.now) ≡ [] → ⊥)) }
{
    let command = command(alloc)?;
    match command.try_get_matches_from(words) {
        Ok(matches) => Ok(Some(matches)),
        Err(error) => match error.kind() {
            ErrorKind::OutOfMemory => Err(NoMemory),
            _ => Ok(None),
        },
    }
}

// The value of an argument that was given.
#[tactic(auto, using(crate::proofs::CommandShape::first_is))]
fn given(alloc: Global, matches: &ArgMatches<'_>, id: &str) -> Result<Text, NoMemory>
    requires { is_some (first_of id.now (rows_of (found_of matches.now))) ≡ true }
    ensures { IfOk result (λ value. first_of id.now (rows_of (found_of matches.now)) ≡ Some value) }
{
    Text::from_bytes(alloc, matches.get_str(id).unwrap().as_bytes())
}

// The name of the capture, if one was given.
#[tactic(auto, using(crate::proofs::CommandShape::first_is))]
fn packets_of(alloc: Global, matches: &ArgMatches<'_>) -> Result<Option<Text>, NoMemory>
    ensures { IfOk result (λ packets.
        packets ≡ first_of (codes "packets") (rows_of (found_of matches.now))) }
{
    match matches.get_str("packets") {
        Some(packets) => Ok(Some(Text::from_bytes(alloc, packets.as_bytes())?)),
        None => Ok(None),
    }
}

// What a subcommand asks for; none where the number of `gen` isn't one.
fn asked_of(alloc: Global, name: &str, matches: &ArgMatches<'_>) -> Result<Option<Asked>, NoMemory>
    requires { HasRequired name.now (rows_of (found_of matches.now)) }
    ensures { IfOk result (λ asked. asked ≡ asked_by name.now (rows_of (found_of matches.now))) }
{
    let asked = match name {
        "run" => Asked::Run {
            script: given(alloc, matches, "script")?,
            packets: packets_of(alloc, matches)?,
        },
        "gen" => match number_of(given(alloc, matches, "number")?.as_slice()) {
            Some(number) => Asked::Gen { number },
            None => return Ok(None),
        },
        "check" => Asked::Check {
            script: given(alloc, matches, "script")?,
            report: given(alloc, matches, "report")?,
            packets: packets_of(alloc, matches)?,
        },
        "join" => Asked::Join {
            script: given(alloc, matches, "script")?,
            packets: given(alloc, matches, "packets")?,
        },
        "vm" => Asked::Vm {
            script: given(alloc, matches, "script")?,
            trace: given(alloc, matches, "trace")?,
        },
        _ => return Ok(None),
    };
    Ok(Some(asked))
}

/// What the words ask for, or none exactly where they have none of the forms.
pub fn read_words(alloc: Global, words: &[Text]) -> Result<Option<Asked>, NoMemory>
    ensures found { IfOk result (λ form. IfSome form (IsAsked words.now)) }
    ensures none { IfOk result (λ form. IfNone form
        ((asked : Asked) → IsAsked words.now asked → ⊥)) }
{
    let Some(plain) = plain_words(alloc, words)? else {
        return Ok(None);
    };
    let Some(matches) = parse(alloc, plain.as_slice())? else {
        return Ok(None);
    };
    match matches.subcommand() {
        Some((name, matches)) => asked_of(alloc, name, matches),
        None => Ok(None),
    }
}
