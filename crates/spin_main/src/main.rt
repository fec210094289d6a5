//! The program: a script in, the report of its history out.
//!
//! `spin run SCRIPT [PACKETS]` reads the script, and the capture if one is named, from the folder where it is called,
//! and writes the report to standard output; `spin join SCRIPT PACKETS` does so over the joined capture.
//! `spin gen NUMBER` runs a large script over a capture, both made from the number, and writes a summary in place of
//! the report. `spin check SCRIPT REPORT [PACKETS]` writes whether a report is that of some run of the script.
//! `spin vm SCRIPT TRACE` reads a trace in the capture's place and writes its output. What is sent to the endpoints
//! `out0` to `out3` goes to the files `out0.bin` to `out3.bin` of that folder, and the replies to the echo requests
//! that are sent to the endpoint `echo` to `echo.bin`.
//!
//! The one call, [`spin`](spin_cli::spin), works over any shelf, sink, endpoints, natives and gate; [`spin_natives`]
//! has the natives that the program hands in.
#![tactic(auto)]

ghost use Rattle.spin_natives.specs.Natives as program;
ghost use Rattle.spin_inputs.specs.Outside.{outside};
ghost use Rattle.spin_cli.specs.Statuses.{Call, IsStatus};

use spin_cli::spin;
use spin_endpoint::{Endpoint, Ends, EndsSeen, FileEnd};
use spin_inputs::{End, stop};
use spin_natives::{boxed_objects, natives_of};
use spin_objects::{Guard, Handler};
use spin_outside::{FolderShelf, OpenGate, Shelf, Sink, StdSink};
use spin_policy::Authoriser;
use spin_reass::EchoEnd;
use spin_values::{NoMemory, Text};
use std::alloc::Global;
use std::io::ErrorKind;
use std::process::ExitCode;
use std::rt::{Env, Files};
use std::thread::Threads;
use std::{env, io};

// The words after the program's name. Arguments that aren't text are no words of any command.
fn words_of<R: Env + AllocGlobal>(rt: &R) -> Result<Vec<Text>, NoMemory> {
    let mut words = Vec::new(rt.alloc());
    match env::args(rt) {
        Ok(arguments) => {
            for argument in arguments.skip(1) {
                words.push(Text::from_bytes(rt.alloc(), argument.as_bytes())?)?;
            }
            Ok(words)
        }
        Err(error) => match error.kind() {
            ErrorKind::OutOfMemory => Err(NoMemory),
            _ => Ok(words),
        },
    }
}

// Does what the words say, with the natives of the program, and answers the status.
fn run_with_natives<R: Threads + Sync, F: Shelf, K: Sink>(
    rt: &R,
    alloc: Global,
    words: &[Text],
    shelf: &mut F,
    out: &mut K,
    ends: &mut Ends,
) -> u8
    ensures { let call : Call = record {
      natives = program.natives;
      words = words.now;
      before = outside (F.seen shelf.old) (K.seen out.old) (⟦<Ends as EndsSeen>⟧.all ends.old);
      after = outside (F.seen shelf.new) (K.seen out.new) (⟦<Ends as EndsSeen>⟧.all ends.new);
      status = result;
    } in
        IsStatus call }
{
    let (handler, guard, authoriser) = match boxed_objects(alloc) {
        Ok(objects) => objects,
        Err(NoMemory) => return stop(out, End::NoMemory),
    };
    let handler: Box<dyn Handler + Send + Sync> = handler;
    let guard: Box<dyn Guard + Send + Sync> = guard;
    let authoriser: Box<dyn Authoriser + Send + Sync> = authoriser;
    let natives = match natives_of(alloc, handler, guard, authoriser) {
        Ok(natives) => natives,
        Err(NoMemory) => return stop(out, End::NoMemory),
    };
    spin(rt, alloc, words, shelf, out, natives, ends, &OpenGate)
}

// Does what the words of the command line say, over the working folder, and answers the status.
fn run<R: Env + Files + Threads + Sync + AllocGlobal, K: Sink>(
    rt: &R,
    out: &mut K,
    ends: &mut Ends,
) -> u8 {
    let Ok(words) = words_of(rt) else {
        return stop(out, End::NoMemory);
    };
    let mut shelf = FolderShelf::new(rt.alloc(), rt);
    run_with_natives(rt, rt.alloc(), &words, &mut shelf, out, ends)
}

// An endpoint over the file of that name.
fn over_file<R: Files + Clone + AllocGlobal>(rt: &R, file: &[u8]) -> Result<FileEnd<R>, NoMemory> {
    FileEnd::new(rt.alloc(), rt.clone()?, Text::from_bytes(rt.alloc(), file)?)
}

// An endpoint of that name over that file.
fn file_end<R: Files + Clone + Drop + AllocGlobal>(
    rt: &R,
    name: &[u8],
    file: &[u8],
) -> Result<(Text, Box<FileEnd<R>>), NoMemory> {
    let name = Text::from_bytes(rt.alloc(), name)?;
    let end = over_file(rt, file)?;
    Ok((name, Box::new(rt.alloc(), end)?))
}

// The endpoint `echo`, which writes its replies to a file.
fn echo_end<R: Files + Clone + Drop + AllocGlobal>(
    rt: &R,
) -> Result<(Text, Box<EchoEnd<FileEnd<R>>>), NoMemory> {
    let name = Text::from_bytes(rt.alloc(), b"echo")?;
    let end = EchoEnd::new(rt.alloc(), over_file(rt, b"echo.bin")?)?;
    Ok((name, Box::new(rt.alloc(), end)?))
}

fn main(rt: HostRuntime) -> ExitCode {
    let mut out = StdSink::new(io::writer(&rt));
    let mut ends = Ends::new(rt.alloc());
    // The names differ and are few, so only memory may be lacking.
    let mut all_added = true;
    for (name, file) in [
        (b"out0", b"out0.bin"),
        (b"out1", b"out1.bin"),
        (b"out2", b"out2.bin"),
        (b"out3", b"out3.bin"),
    ] {
        if let Ok((name, end)) = file_end(&rt, name, file) {
            let end: Box<dyn Endpoint> = end;
            all_added &= ends.add(name, end).is_ok();
        } else {
            all_added = false;
        }
    }
    if let Ok((name, end)) = echo_end(&rt) {
        let end: Box<dyn Endpoint> = end;
        all_added &= ends.add(name, end).is_ok();
    } else {
        all_added = false;
    }
    let status = if all_added {
        run(&rt, &mut out, &mut ends)
    } else {
        stop(&mut out, End::NoMemory)
    };
    ExitCode::from(status)
}
