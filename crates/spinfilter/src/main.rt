//! A filter of captures of any length: what the records of captures come to by a script, in constant memory.
//!
//! `spinfilter SCRIPT CAPTURE.. [-w FILE] [--counts]` does the commands of the script, and then raises the event of its
//! packet lines with each record of each capture, one after another. What is sent to the endpoints `out0` to `out3` goes
//! to the files `out0.bin` to `out3.bin` of the folder where it is called, and the replies to the echo requests that are
//! sent to the endpoint `echo` to `echo.bin`; with `-w FILE` what is sent to `out0` goes to FILE, as a capture. With
//! `--counts` it writes the counts of what was done to standard output.
#![tactic(auto)]

mod end;
mod file;
mod filter;
mod told;
mod words;

use crate::end::{tell, tell_usage};
use crate::file::CaptureFile;
use crate::filter::filter_as_asked;
use crate::words::{Asked, read_words};
use spin_endpoint::{Endpoint, Ends, FileEnd};
use spin_filter::{Counts, Outlets, Stop};
use spin_frames::FrameFile;
use spin_natives::{boxed_objects, natives_of};
use spin_objects::{Guard, Handler, Natives};
use spin_outside::{FolderShelf, Sink, StdSink};
use spin_policy::Authoriser;
use spin_reass::EchoEnd;
use spin_values::{NoMemory, Text};
use std::alloc::Global;
use std::io::ErrorKind;
use std::process::ExitCode;
use std::rt::{Env, Files};
use std::{env, io};

// The words after the program's name. Arguments that aren't text are no words of any form.
fn words_of<R: Env + AllocGlobal>(rt: &R) -> Result<Vec<Text>, NoMemory> {
    let mut words = Vec::new(rt.alloc());
    match env::args(rt) {
        Ok(arguments) => {
            for argument in arguments.skip(1) {
                words.push(Text::from_bytes(rt.alloc(), argument.as_bytes())?)?;
            }
            Ok(words)
        }
        Err(error) => match error.kind() {
            ErrorKind::OutOfMemory => Err(NoMemory),
            _ => Ok(words),
        },
    }
}

// Where sends go: the endpoints, and the file that is asked for.
fn outlets_of<R: Files + Clone + Drop + AllocGlobal>(
    rt: &R,
    asked: &Asked,
    ends: Ends,
) -> Result<Outlets<CaptureFile<R>>, NoMemory> {
    let name = match &asked.file {
        Some(name) => name.copy()?,
        None => Text::new(rt.alloc()),
    };
    let file = FrameFile::new(rt.alloc(), CaptureFile::new(rt.clone()?, name))?;
    let counts = Counts::new(rt.alloc())?;
    Ok(Outlets { ends, file, counts })
}

// Does what is asked for, with the natives of the program, and answers the status.
fn run_asked<R: Files + Clone + Drop + AllocGlobal, K: Sink>(
    rt: &R,
    asked: &Asked,
    ends: Ends,
    out: &mut K,
) -> u8 {
    let (handler, guard, authoriser) = match boxed_objects(rt.alloc()) {
        Ok(objects) => objects,
        Err(NoMemory) => return tell(out, Stop::NoMemory),
    };
    let handler: Box<dyn Handler + Send + Sync> = handler;
    let guard: Box<dyn Guard + Send + Sync> = guard;
    let authoriser: Box<dyn Authoriser + Send + Sync> = authoriser;
    let natives = match natives_of(rt.alloc(), handler, guard, authoriser) {
        Ok(natives) => natives,
        Err(NoMemory) => return tell(out, Stop::NoMemory),
    };
    let Ok(mut outlets) = outlets_of(rt, asked, ends) else {
        return tell(out, Stop::NoMemory);
    };
    let mut shelf = FolderShelf::new(rt.alloc(), rt);
    filter_as_asked(rt.alloc(), asked, natives, &mut shelf, out, &mut outlets)
}

// Does what the words of the command line say, over the working folder, and answers the status.
fn run<R: Env + Files + Clone + Drop + AllocGlobal, K: Sink>(
    rt: &R,
    out: &mut K,
    ends: Ends,
) -> u8 {
    let Ok(words) = words_of(rt) else {
        return tell(out, Stop::NoMemory);
    };
    match read_words(rt.alloc(), &words) {
        Ok(Some(asked)) => run_asked(rt, &asked, ends, out),
        Ok(None) => tell_usage(out),
        Err(NoMemory) => tell(out, Stop::NoMemory),
    }
}

// An endpoint over the file of that name.
fn over_file<R: Files + Clone + AllocGlobal>(rt: &R, file: &[u8]) -> Result<FileEnd<R>, NoMemory> {
    FileEnd::new(rt.alloc(), rt.clone()?, Text::from_bytes(rt.alloc(), file)?)
}

// An endpoint of that name over that file.
fn file_end<R: Files + Clone + Drop + AllocGlobal>(
    rt: &R,
    name: &[u8],
    file: &[u8],
) -> Result<(Text, Box<FileEnd<R>>), NoMemory> {
    let name = Text::from_bytes(rt.alloc(), name)?;
    let end = over_file(rt, file)?;
    Ok((name, Box::new(rt.alloc(), end)?))
}

// The endpoint `echo`, which writes its replies to a file.
fn echo_end<R: Files + Clone + Drop + AllocGlobal>(
    rt: &R,
) -> Result<(Text, Box<EchoEnd<FileEnd<R>>>), NoMemory> {
    let name = Text::from_bytes(rt.alloc(), b"echo")?;
    let end = EchoEnd::new(rt.alloc(), over_file(rt, b"echo.bin")?)?;
    Ok((name, Box::new(rt.alloc(), end)?))
}

fn main(rt: HostRuntime) -> ExitCode {
    let mut out = StdSink::new(io::writer(&rt));
    let mut ends = Ends::new(rt.alloc());
    // The names differ and are few, so only memory may be lacking.
    let mut all_added = true;
    for (name, file) in [
        (b"out0", b"out0.bin"),
        (b"out1", b"out1.bin"),
        (b"out2", b"out2.bin"),
        (b"out3", b"out3.bin"),
    ] {
        if let Ok((name, end)) = file_end(&rt, name, file) {
            let end: Box<dyn Endpoint> = end;
            all_added &= ends.add(name, end).is_ok();
        } else {
            all_added = false;
        }
    }
    if let Ok((name, end)) = echo_end(&rt) {
        let end: Box<dyn Endpoint> = end;
        all_added &= ends.add(name, end).is_ok();
    } else {
        all_added = false;
    }
    let status = if all_added {
        run(&rt, &mut out, ends)
    } else {
        tell(&mut out, Stop::NoMemory)
    };
    ExitCode::from(status)
}
