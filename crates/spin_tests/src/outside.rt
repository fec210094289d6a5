//! Sinks, shelves and sources in memory, and their failing calls.

use spin_outside::{
    Failed, FindFault, MemShelf, MemSink, MemSource, NoMemory, Octets, Shelf, ShelfSource, Source,
    TakeFault, Text, read_up_to, write_all,
};
use std::alloc::Global;
use std::process::Abort;
use std::test::Fail;

// The files of a shelf, of which one is put twice.
const FILES: [(&[u8], &[u8]); 3] = [(b"a", b"old"), (b"b", b"xyz"), (b"a", b"first")];

fn put(alloc: Global, shelf: &mut MemShelf, name: &[u8], bytes: &[u8]) -> Result<(), NoMemory> {
    let bytes = Octets::from_bytes(alloc, bytes)?;
    shelf.put(Text::from_bytes(alloc, name)?, bytes)
}

fn shelf_of_two(alloc: Global) -> Result<MemShelf, NoMemory> {
    let mut shelf = MemShelf::new(alloc);
    for (name, bytes) in FILES {
        put(alloc, &mut shelf, name, bytes)?;
    }
    Ok(shelf)
}

// Pieces, what `write_all` answers, and what the sink has then.
const WRITES: [(&[u8], Result<(), Failed>, &[u8]); 4] = [
    (b"abcd", Ok(()), b"abcd"),
    (b"lost", Err(Failed), b"abcd"),
    (b"efgh", Err(Failed), b"abcdef"),
    (b"", Ok(()), b"abcdef"),
];

// Each piece is answered, and the sink has what it should.
fn are_written(rt: &impl Abort, sink: &mut MemSink) {
    for (piece, answer, bytes) in WRITES {
        assert_eq!(rt; write_all(sink, piece), answer);
        assert_eq!(rt; sink.bytes(), bytes);
    }
}

#[test]
fn sink_in_memory(rt: HostRuntime) -> Result<(), NoMemory> {
    let mut sink = MemSink::new(rt.alloc(), 6)?;
    sink.fail_at(1)?;
    are_written(&rt, &mut sink);
    Ok(())
}

// The number under which a file is found, or why it isn't.
fn found(
    alloc: Global,
    shelf: &mut MemShelf,
    name: &[u8],
) -> Result<Result<u32, FindFault>, NoMemory> {
    Ok(shelf.find(&Text::from_bytes(alloc, name)?))
}

// Names, and why they aren't found.
const FINDS: [(&[u8], Option<FindFault>); 3] = [
    (b"a", None),
    (b"a", Some(FindFault::Failed)),
    (b"c", Some(FindFault::Absent)),
];

// Each name is found, or not for its fault. The second find fails.
fn are_found(rt: &impl Abort, alloc: Global, shelf: &mut MemShelf) -> Result<(), NoMemory> {
    shelf.fail_find(1)?;
    for (name, fault) in FINDS {
        assert_eq!(rt; found(alloc, shelf, name)?.err(), fault);
    }
    Ok(())
}

#[test]
fn files_of_a_shelf_are_found(rt: HostRuntime) -> Result<(), NoMemory> {
    are_found(&rt, rt.alloc(), &mut shelf_of_two(rt.alloc())?)
}

// The number of file a.
fn first_file(alloc: Global, shelf: &mut MemShelf) -> Result<u32, Fail> {
    match found(alloc, shelf, b"a")? {
        Ok(file) => Ok(file),
        Err(_) => Err(Fail::new("file a isn't found")),
    }
}

// Why the file's rest isn't taken up to this limit, or whether it is the word "first".
fn taken(alloc: Global, shelf: &mut MemShelf, file: u32, limit: u32) -> Result<bool, TakeFault> {
    let bytes = read_up_to(alloc, shelf, file, limit)?;
    Ok(bytes.as_slice() == b"first".as_slice())
}

// File a is taken whole; of the file that is found again a read fails, and then it is too large.
fn are_taken(rt: &impl Abort, alloc: Global, shelf: &mut MemShelf) -> Result<(), Fail> {
    shelf.fail_read(2)?;
    let file = first_file(alloc, shelf)?;
    assert_eq!(rt; taken(alloc, shelf, file, 5), Ok(true));
    let again = first_file(alloc, shelf)?;
    for (limit, fault) in [(5, TakeFault::Failed), (4, TakeFault::TooLarge)] {
        assert_eq!(rt; taken(alloc, shelf, again, limit), Err(fault));
    }
    Ok(())
}

#[test]
fn files_of_a_shelf_are_taken(rt: HostRuntime) -> Result<(), Fail> {
    are_taken(&rt, rt.alloc(), &mut shelf_of_two(rt.alloc())?)
}

// Reads to the end, and over failed calls; answers what was read and the numbers of the calls that failed.
fn read_over_faults<S: Source>(alloc: Global, source: &mut S) -> Result<(Octets, Vec<u32>), Fail> {
    let mut bytes = Octets::new(alloc);
    let mut failed = Vec::new(alloc);
    let mut buf = [0u8; 4];
    for call in 0..100u32 {
        match source.read(&mut buf) {
            Ok(0) => return Ok((bytes, failed)),
            Ok(count) => bytes.extend_from_slice(&buf[..count])?,
            Err(Failed) => failed.push(call)?,
        }
    }
    Err(Fail::new("a source doesn't end"))
}

// Whether these bytes are read, over failed calls of these numbers.
fn are_read<S: Source>(
    alloc: Global,
    source: &mut S,
    bytes: &[u8],
    calls: &[u32],
) -> Result<bool, Fail> {
    let (read, failed) = read_over_faults(alloc, source)?;
    Ok(read.as_slice() == bytes && failed.as_slice() == calls)
}

// A source of ten bytes, whose second and fourth call fail.
fn source_of_ten(alloc: Global) -> Result<MemSource, NoMemory> {
    let mut source = MemSource::new(Octets::from_bytes(alloc, b"abcdefghij")?);
    source.fail_at(1)?;
    source.fail_at(3)?;
    Ok(source)
}

// Four bytes are read, and then the others in pieces and over two faults.
fn is_read(rt: &impl Abort, alloc: Global, source: &mut MemSource) -> Result<(), Fail> {
    let mut buf = [0u8; 4];
    assert_eq!(rt; source.read(&mut buf), Ok(4));
    assert_eq!(rt; buf, *b"abcd");
    source.in_pieces(3);
    assert!(rt; are_read(alloc, source, b"efghij", &[0, 2])?);
    assert_eq!(rt; source.taken(), 10);
    Ok(())
}

#[test]
fn source_in_memory(rt: HostRuntime) -> Result<(), Fail> {
    is_read(&rt, rt.alloc(), &mut source_of_ten(rt.alloc())?)
}

// Whether file a is read, and over a fault.
fn first_is_read(alloc: Global, shelf: &mut MemShelf) -> Result<bool, Fail> {
    shelf.fail_read(1)?;
    let file = first_file(alloc, shelf)?;
    let mut source = ShelfSource { shelf, file };
    are_read(alloc, &mut source, b"first", &[1])
}

#[test]
fn file_of_a_shelf_as_a_source(rt: HostRuntime) -> Result<(), Fail> {
    let is_read = first_is_read(rt.alloc(), &mut shelf_of_two(rt.alloc())?)?;
    assert!(rt; is_read);
    Ok(())
}
