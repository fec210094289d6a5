//! The adapters of the outside: files of a folder, writers of std, and endpoints over files.

use spin_endpoint::{Endpoint, FileEnd};
use spin_outside::{
    Failed, FindFault, FolderShelf, NoMemory, Shelf, Sink, StdSink, Text, read_up_to, write_all,
};
use std::alloc::Global;
use std::fs;
use std::io::{self, ErrorKind, Write};
use std::process::Abort;
use std::rt::Files;
use std::test::Fail;

// A writer that takes so many bytes of a piece at most, and fails at the calls from one on.
#[derive(Drop)]
struct Narrow {
    most: usize,
    calls_left: u32,
    taken: Vec<u8>,
}

impl Narrow {
    fn new(alloc: Global, most: usize, calls_left: u32) -> Narrow {
        Narrow {
            most,
            calls_left,
            taken: Vec::new(alloc),
        }
    }
}

impl Write for Narrow {
    fn write(&mut self, buf: &[u8]) -> io::Result<usize> {
        if self.calls_left == 0 {
            return Err(io::Error::from(ErrorKind::BrokenPipe));
        }
        self.calls_left -= 1;
        let count = buf.len().min(self.most);
        match self.taken.extend_from_slice(&buf[..count]) {
            Ok(()) => Ok(count),
            Err(_) => Err(io::Error::from(ErrorKind::OutOfMemory)),
        }
    }

    fn flush(&mut self) -> io::Result<()> {
        Ok(())
    }
}

// Whether the file comes to have this text.
fn put(files: &impl Files, name: &str, text: &str) -> bool {
    fs::write(files, name, text).is_ok()
}

// The number under which a file is found.
fn found<F: Shelf>(alloc: Global, shelf: &mut F, name: &[u8]) -> Result<u32, Fail> {
    match shelf.find(&Text::from_bytes(alloc, name)?) {
        Ok(file) => Ok(file),
        Err(_) => Err(Fail::new("a file isn't found")),
    }
}

// The bytes of a file of the folder, or those of a word where it can't be read.
fn bytes_of<R: Files + AllocGlobal>(
    rt: &R,
    alloc: Global,
    name: &str,
) -> Result<Vec<u8>, NoMemory> {
    match fs::read(rt, name) {
        Ok(bytes) => Ok(bytes),
        Err(_) => {
            let mut none = Vec::new(alloc);
            none.extend_from_slice(b"not there")?;
            Ok(none)
        }
    }
}

// The numbers of two files, and of the first once more.
fn three_found<F: Shelf>(alloc: Global, shelf: &mut F) -> Result<[u32; 3], Fail> {
    let a = found(alloc, shelf, b"turns_a.txt")?;
    let b = found(alloc, shelf, b"turns_b.txt")?;
    Ok([a, b, found(alloc, shelf, b"turns_a.txt")?])
}

// Whether the next read of the file, into room for three bytes, gives these.
fn gives<F: Shelf>(shelf: &mut F, file: u32, bytes: &[u8]) -> bool {
    let mut buf = [0u8; 3];
    match shelf.read(file, &mut buf) {
        Ok(count) => count == bytes.len() && buf.starts_with(bytes),
        Err(_) => false,
    }
}

// Files by number, and what each gives in turn.
const TURNS: [(u32, &[u8]); 10] = [
    (0, b"abc"),
    (1, b"ABC"),
    (2, b"abc"),
    (0, b"def"),
    (2, b"def"),
    (1, b"D"),
    (0, b""),
    (1, b""),
    (2, b""),
    (3, b""),
];

// Three files are found, and each read gives what it should.
fn read_in_turns<F: Shelf>(rt: &impl Abort, alloc: Global, shelf: &mut F) -> Result<(), Fail> {
    assert_eq!(rt; three_found(alloc, shelf)?, [0, 1, 2]);
    for (file, bytes) in TURNS {
        assert!(rt; gives(shelf, file, bytes), "file {file}");
    }
    Ok(())
}

#[test]
fn files_of_a_folder_are_read_in_turns(rt: HostRuntime) -> Result<(), Fail> {
    assert!(rt; put(&rt, "turns_a.txt", "abcdef"));
    assert!(rt; put(&rt, "turns_b.txt", "ABCD"));
    read_in_turns(&rt, rt.alloc(), &mut FolderShelf::new(rt.alloc(), &rt))
}

// Whether the shelf has no such file.
fn is_absent<F: Shelf>(alloc: Global, shelf: &mut F, name: &[u8]) -> Result<bool, NoMemory> {
    Ok(shelf.find(&Text::from_bytes(alloc, name)?) == Err(FindFault::Absent))
}

// Names that are no file's are absent.
fn are_absent<F: Shelf>(rt: &impl Abort, alloc: Global, shelf: &mut F) -> Result<(), NoMemory> {
    for name in [b"not there".as_slice(), b"no folder/a", b"\xff"] {
        assert!(rt; is_absent(alloc, shelf, name)?);
    }
    Ok(())
}

#[test]
fn what_a_folder_lacks(rt: HostRuntime) -> Result<(), NoMemory> {
    are_absent(&rt, rt.alloc(), &mut FolderShelf::new(rt.alloc(), &rt))
}

// A folder is opened as a file is, and each read of it fails.
#[test]
fn a_folder_is_no_file(rt: HostRuntime) -> Result<(), Fail> {
    let mut shelf = FolderShelf::new(rt.alloc(), &rt);
    let folder = found(rt.alloc(), &mut shelf, b".")?;
    let mut buf = [0u8; 3];
    for _ in 0..2u8 {
        assert_eq!(rt; shelf.read(folder, &mut buf), Err(Failed));
    }
    assert!(rt; read_up_to(rt.alloc(), &mut shelf, folder, 100).is_err());
    Ok(())
}

// How many bytes are taken of the file of that name, where it has no more than the limit.
fn taken<F: Shelf>(
    alloc: Global,
    shelf: &mut F,
    name: &[u8],
    limit: u32,
) -> Result<Option<usize>, Fail> {
    let file = found(alloc, shelf, name)?;
    match read_up_to(alloc, shelf, file, limit) {
        Ok(bytes) => Ok(Some(bytes.len())),
        Err(_) => Ok(None),
    }
}

// Names, limits, and how many bytes are taken.
const LIMITS: [(&[u8], u32, Option<usize>); 4] = [
    (b"limit.txt", 7, Some(6)),
    (b"limit.txt", 6, Some(6)),
    (b"limit.txt", 5, None),
    (b"empty.txt", 0, Some(0)),
];

// Of each file as many bytes are taken as should be.
fn are_taken<F: Shelf>(rt: &impl Abort, alloc: Global, shelf: &mut F) -> Result<(), Fail> {
    for (name, limit, length) in LIMITS {
        assert_eq!(rt; taken(alloc, shelf, name, limit)?, length);
    }
    Ok(())
}

#[test]
fn files_of_a_folder_are_taken_up_to_a_limit(rt: HostRuntime) -> Result<(), Fail> {
    assert!(rt; put(&rt, "limit.txt", "abcdef"));
    assert!(rt; put(&rt, "empty.txt", ""));
    are_taken(&rt, rt.alloc(), &mut FolderShelf::new(rt.alloc(), &rt))
}

// How many bytes a call takes, at how many calls, and what `write_all` of four bytes answers.
const WRITERS: [(usize, u32, Result<(), Failed>); 5] = [
    (1, 4, Ok(())),
    (3, 2, Ok(())),
    (9, 1, Ok(())),
    (1, 3, Err(Failed)),
    (0, 9, Err(Failed)),
];

#[test]
fn narrow_writers(rt: HostRuntime) {
    for (most, calls, answer) in WRITERS {
        let mut sink = StdSink::new(Narrow::new(rt.alloc(), most, calls));
        assert_eq!(rt; write_all(&mut sink, b"abcd"), answer);
    }
}

#[test]
fn a_narrow_writer_in_turns(rt: HostRuntime) {
    let mut sink = StdSink::new(Narrow::new(rt.alloc(), 1, 3));
    for (piece, answer) in [
        (b"abcd".as_slice(), Ok(1)),
        (b"bcd", Ok(1)),
        (b"c", Ok(1)),
        (b"d", Err(Failed)),
    ] {
        assert_eq!(rt; sink.write(piece), answer);
    }
}

// Whether the endpoint takes two bytes and then none; it is finished.
fn takes_two<E: Endpoint>(end: &mut E) -> bool {
    let takes = end.take(b"ab").is_ok() && end.take(b"").is_ok();
    end.finish();
    takes
}

// Whether the endpoint fails twice; it is finished.
fn fails_twice<E: Endpoint>(end: &mut E) -> bool {
    let fails = end.take(b"ab").is_err() && end.take(b"ab").is_err();
    end.finish();
    fails
}

// Two endpoints in turn over one name, one over another, and what lies in the file after each.
const ROUNDS: [(&[u8], &str, &[u8]); 3] = [
    (b"stood.bin", "stood.bin", b"stood\0\0\0\x02ab\0\0\0\0"),
    (
        b"stood.bin",
        "stood.bin",
        b"stood\0\0\0\x02ab\0\0\0\0\0\0\0\x02ab\0\0\0\0",
    ),
    (b"fresh.bin", "fresh.bin", b"\0\0\0\x02ab\0\0\0\0"),
];

#[test]
fn an_endpoint_appends_to_a_file(rt: HostRuntime) -> Result<(), NoMemory> {
    let alloc = rt.alloc();
    assert!(rt; fs::write(&rt, "stood.bin", "stood").is_ok());
    let _ = fs::remove_file(&rt, "fresh.bin");
    for (name, path, bytes) in ROUNDS {
        let mut end = FileEnd::new(alloc, rt.clone()?, Text::from_bytes(alloc, name)?)?;
        assert!(rt; takes_two(&mut end));
        assert_eq!(rt; bytes_of(&rt, alloc, path)?.as_slice(), bytes);
    }
    Ok(())
}

#[test]
fn an_endpoint_that_opens_no_file(rt: HostRuntime) -> Result<(), NoMemory> {
    for name in [b"no folder/out.bin".as_slice(), b".", b"\xff.bin"] {
        let mut end = FileEnd::new(rt.alloc(), rt.clone()?, Text::from_bytes(rt.alloc(), name)?)?;
        assert!(rt; fails_twice(&mut end));
    }
    Ok(())
}

// No file is made before the first piece.
#[test]
fn an_endpoint_that_takes_nothing(rt: HostRuntime) -> Result<(), NoMemory> {
    let _ = fs::remove_file(&rt, "unused.bin");
    let mut end = FileEnd::new(
        rt.alloc(),
        rt.clone()?,
        Text::from_bytes(rt.alloc(), b"unused.bin")?,
    )?;
    end.finish();
    assert!(rt; fs::read(&rt, "unused.bin").is_err());
    Ok(())
}
