// Calls of desks, as rows.
ghost use Rattle.std.specs.Prelude.{◌≡◌, ◌<◌, ◌≤◌, IfOk, IsTrue};
ghost use Rattle.rst_outside.specs.Files.{names_differ};

use rst_outside::{Bytes, Desk, DeskFile, Failed, LoadError, MemoryDesk, Name, NoMemory, SureDesk};
use std::alloc::Global;
use std::str;

fn file(alloc: Global, name: &str, bytes: &[u8]) -> Result<DeskFile, NoMemory>
    ensures { IfOk result (λ file. file.name ≡ name.now) }
{
    Ok(DeskFile {
        name: Name::new(alloc, name.as_bytes())?,
        bytes: Bytes::new(alloc, bytes)?,
    })
}

/// The files `a` and `b`, of three bytes and of none.
pub(crate) fn two_files(alloc: Global) -> Result<Vec<DeskFile>, NoMemory>
    ensures { IfOk result (λ files. IsTrue (names_differ files.items)) }
{
    let mut files = Vec::new(alloc);
    files.push(file(alloc, "a", b"abc")?)?;
    files.push(file(alloc, "b", b"")?)?;
    Ok(files)
}

/// So many bytes, of which no two beside each other are equal.
pub(crate) fn long_text(alloc: Global, count: u32) -> Result<Vec<u8>, NoMemory> {
    let mut text = Vec::new(alloc);
    for i in 0..count {
        text.push((i % 251) as u8)?;
    }
    Ok(text)
}

/// Saves a text under a name, in pieces of so many bytes, and of one at least.
pub(crate) fn save_in_pieces<K: Desk>(
    desk: &mut K,
    name: &str,
    text: &[u8],
    size: usize,
) -> Result<(), Failed> {
    let mut first = true;
    for piece in text.chunks(size.max(1)) {
        desk.save_piece(name, first, piece)?;
        first = false;
    }
    Ok(())
}

/// Reads what stands under a name to its end, in pieces of at most so many bytes: 1 to 65,536.
pub(crate) fn read_in_pieces<K: Desk>(
    alloc: Global,
    desk: &mut K,
    name: &str,
    size: usize,
) -> Result<Vec<u8>, Failed> {
    let mut text = Vec::new(alloc);
    let mut piece = [0u8; 65536];
    let size = size.max(1).min(65_536);
    for _ in 0..u64::MAX {
        let count = desk.load_piece(name, text.len() as u64, &mut piece[..size])?;
        if count == 0 {
            return Ok(text);
        }
        if text.extend_from_slice(&piece[..count as usize]).is_err() {
            break;
        }
    }
    Err(Failed)
}

/// What a call answers: the bytes that it gives, none where it gives none.
pub(crate) type Answer = Result<String, LoadError>;

fn bytes(alloc: Global, bytes: &[u8]) -> Option<Answer> {
    let text = str::from_utf8(bytes).ok()?;
    Some(Ok(String::from_str(alloc, text).ok()?))
}

/// The answer of a call that gives no bytes.
pub(crate) fn done(alloc: Global, succeeded: bool) -> Answer {
    if succeeded {
        Ok(String::new(alloc))
    } else {
        Err(LoadError::Failed)
    }
}

fn load<K: Desk>(alloc: Global, desk: &mut K, name: &str, limit: u32) -> Option<Answer> {
    match desk.load(alloc, name, u64::from(limit)) {
        Ok(found) => bytes(alloc, &found),
        Err(error) => Some(Err(error)),
    }
}

// A piece of at most so many bytes: 1 to 9.
fn piece<K: Desk>(
    alloc: Global,
    desk: &mut K,
    name: &str,
    from: u64,
    room: usize,
) -> Option<Answer> {
    let mut into = [0u8; 9];
    let into = &mut into[..room.max(1).min(9)];
    match desk.load_piece(name, from, into) {
        Ok(count) => bytes(alloc, into.get(..count as usize)?),
        Err(Failed) => Some(Err(LoadError::Failed)),
    }
}

// Where a piece begins, and how many bytes it has room for: nine where nothing is said.
fn place(words: &str) -> Option<(u64, usize)> {
    match words.split_once(" ") {
        Some((from, room)) => Some((from.parse::<u64>().ok()?, room.parse::<usize>().ok()?)),
        None => Some((words.parse::<u64>().ok()?, 9)),
    }
}

// A word, the name and what stands behind it.
fn parts(row: &str) -> Option<(&str, &str, &str)> {
    let mut parts = row.splitn(3, ' ');
    let call = parts.next()?;
    let name = parts.next()?;
    Some((call, name, parts.next().unwrap_or("")))
}

/// Calls a desk: `first NAME BYTES` and `next NAME BYTES` save a piece, `load NAME LIMIT` loads a file, and `piece NAME FROM` or
/// `piece NAME FROM ROOM` a piece.
pub(crate) fn call<K: Desk>(alloc: Global, desk: &mut K, row: &str) -> Option<Answer> {
    let (call, name, rest) = parts(row)?;
    match call {
        "first" => Some(done(alloc, desk.save_piece(name, true, rest.as_bytes()).is_ok())),
        "next" => Some(done(alloc, desk.save_piece(name, false, rest.as_bytes()).is_ok())),
        "load" => load(alloc, desk, name, rest.parse::<u32>().ok()?),
        "piece" => {
            let (from, room) = place(rest)?;
            piece(alloc, desk, name, from, room)
        }
        _ => None,
    }
}

/// A desk in memory.
pub(crate) trait Kept: Desk {
    /// Makes room under a name.
    fn room(&mut self, name: &str, bytes: u64) -> Result<(), NoMemory>;

    /// What stands under a name.
    fn under(&self, name: &str) -> Option<&[u8]>;
}

impl Kept for MemoryDesk {
    fn room(&mut self, name: &str, bytes: u64) -> Result<(), NoMemory> {
        self.reserve(name, bytes)
    }

    fn under(&self, name: &str) -> Option<&[u8]> {
        self.file(name)
    }
}

impl Kept for SureDesk {
    fn room(&mut self, name: &str, bytes: u64) -> Result<(), NoMemory> {
        self.reserve(name, bytes)
    }

    fn under(&self, name: &str) -> Option<&[u8]> {
        self.file(name)
    }
}

/// Calls a desk in memory: also `room NAME BYTES`, and `file NAME`, which is none where no file has the name.
pub(crate) fn kept_call<K: Kept>(alloc: Global, desk: &mut K, row: &str) -> Option<Answer> {
    let (word, name, rest) = parts(row)?;
    match word {
        "room" => Some(done(alloc, desk.room(name, rest.parse::<u64>().ok()?).is_ok())),
        "file" => bytes(alloc, desk.under(name)?),
        _ => call(alloc, desk, row),
    }
}
