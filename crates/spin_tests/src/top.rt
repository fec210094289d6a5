//! The top call over shelves and sinks in memory: words of no command that no worked case has, and an empty shelf.

use spin_cli::spin;
use spin_code::Sincere;
use spin_endpoint::Ends;
use spin_objects::Natives;
use spin_outside::{MemShelf, MemSink, OpenGate};
use spin_values::{NoMemory, Octets, Text};
use std::alloc::Global;
use std::thread::Threads;

const USAGE: &[u8] =
    b"usage: spin run SCRIPT [PACKETS] | spin gen NUMBER | spin check SCRIPT REPORT [PACKETS] | spin join SCRIPT PACKETS | spin vm SCRIPT TRACE\n";

fn words(alloc: Global, texts: &[&[u8]]) -> Result<Vec<Text>, NoMemory> {
    let mut words = Vec::new(alloc);
    for bytes in texts {
        words.push(Text::from_bytes(alloc, bytes)?)?;
    }
    Ok(words)
}

pub(crate) fn put(
    alloc: Global,
    shelf: &mut MemShelf,
    name: &[u8],
    bytes: &[u8],
) -> Result<(), NoMemory> {
    let bytes = Octets::from_bytes(alloc, bytes)?;
    shelf.put(Text::from_bytes(alloc, name)?, bytes)
}

pub(crate) fn shelf_with(alloc: Global, script: &[u8]) -> Result<MemShelf, NoMemory> {
    let mut shelf = MemShelf::new(alloc);
    put(alloc, &mut shelf, b"script", script)?;
    Ok(shelf)
}

// The status of a call with these natives.
pub(crate) fn status_with<R: Threads + Sync>(
    rt: &R,
    alloc: Global,
    texts: &[&[u8]],
    shelf: &mut MemShelf,
    out: &mut MemSink,
    natives: Natives,
    ends: &mut Ends,
) -> Result<u8, NoMemory>
    requires sincere { ⟦<Natives as Sincere>⟧.sincere natives }
{
    let words = words(alloc, texts)?;
    Ok(spin(rt, alloc, &words, shelf, out, natives, ends, &OpenGate))
}

// A call with these natives and without endpoints: its status, and what was written.
fn call<R: Threads + Sync>(
    rt: &R,
    alloc: Global,
    texts: &[&[u8]],
    shelf: &mut MemShelf,
    natives: Natives,
) -> Result<(u8, MemSink), NoMemory>
    requires sincere { ⟦<Natives as Sincere>⟧.sincere natives }
{
    let mut out = MemSink::new(alloc, 1000)?;
    let mut ends = Ends::new(alloc);
    let status = status_with(rt, alloc, texts, shelf, &mut out, natives, &mut ends)?;
    Ok((status, out))
}

// A run of the script with these natives: its status, and what was written.
pub(crate) fn run_with<R: Threads + Sync>(
    rt: &R,
    alloc: Global,
    script: &[u8],
    natives: Natives,
) -> Result<(u8, MemSink), NoMemory>
    requires sincere { ⟦<Natives as Sincere>⟧.sincere natives }
{
    let mut shelf = shelf_with(alloc, script)?;
    let texts = [b"run".as_slice(), b"script"];
    call(rt, alloc, &texts, &mut shelf, natives)
}

#[test]
fn a_shelf_is_empty(rt: HostRuntime) -> Result<(), NoMemory> {
    let alloc = rt.alloc();
    let texts = [b"run".as_slice(), b"script", b"packets"];
    let natives = Natives::new(alloc);
    let (status, out) = call(&rt, alloc, &texts, &mut MemShelf::new(alloc), natives)?;
    assert_eq!(rt; status, 6);
    assert_eq!(rt; out.bytes(), b"stop 6 script\n".as_slice());
    Ok(())
}

// A call with words that are none of a command, over a shelf with a script: its status, and what was written.
fn misspelled<R: Threads + Sync>(
    rt: &R,
    alloc: Global,
    texts: &[&[u8]],
) -> Result<(u8, MemSink), NoMemory> {
    let mut shelf = shelf_with(alloc, b"spin 1\n")?;
    call(rt, alloc, texts, &mut shelf, Natives::new(alloc))
}

// Words of no command.
const MISSPELLED: [&[&[u8]]; 9] = [
    &[],
    &[b"run"],
    &[b"help"],
    &[b"join"],
    &[b"run", b""],
    &[b"run", b"-script"],
    &[b"run", b"\xff"],
    &[b"walk", b"script"],
    &[b"run", b"--", b"script"],
];

#[test]
fn words_of_no_command(rt: HostRuntime) -> Result<(), NoMemory> {
    for texts in MISSPELLED {
        let (status, out) = misspelled(&rt, rt.alloc(), texts)?;
        assert_eq!(rt; status, 1);
        assert_eq!(rt; out.bytes(), USAGE);
    }
    Ok(())
}
