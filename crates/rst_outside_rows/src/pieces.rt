// What is saved in pieces is read back, whatever their lengths.
use crate::bench::{kept_call, long_text, read_in_pieces, save_in_pieces, two_files};
use rst_outside::{MemoryDesk, SureDesk};
use rst_table::agree;
use std::alloc::Global;
use std::test::Fail;

const LENGTH: u32 = 70_000;

// Whether a text stands where it is saved in pieces of a size, and is read back in pieces of that size.
fn saved_and_read(
    alloc: Global,
    desk: &mut SureDesk,
    text: &[u8],
    size: usize,
) -> Option<(bool, bool)> {
    save_in_pieces(desk, "c", text, size).ok()?;
    let stands = desk.file("c") == Some(text);
    let back = read_in_pieces(alloc, desk, "c", size).ok()?;
    Some((stands, back.as_slice() == text))
}

fn reads_back(alloc: Global, size: &str) -> Option<(bool, bool)> {
    let size = size.parse::<usize>().ok()?;
    let text = long_text(alloc, LENGTH).ok()?;
    let mut desk = SureDesk::new(alloc, two_files(alloc).ok()?);
    desk.reserve("c", u64::from(LENGTH)).ok()?;
    saved_and_read(alloc, &mut desk, &text, size)
}

const SIZES: &str = "
    1     => (true, true)
    7     => (true, true)
    65536 => (true, true)
";

#[test]
fn reads_back_what_was_saved_in_pieces(rt: HostRuntime) -> Result<(), Fail> {
    agree(rt.alloc(), SIZES, reads_back)?;
    Ok(())
}

const STEPS: &str = r#"
    room a 8     => Ok("")
    next a de    => Ok("")
    file a       => Ok("abcde")
    next a       => Ok("")
    file a       => Ok("abcde")
    first a xyz  => Ok("")
    file a       => Ok("xyz")
    next a 1234  => Err(Failed)
    file a       => Ok("xyz")
    next a 123   => Ok("")
    file a       => Ok("xyz123")
"#;

#[test]
fn a_piece_goes_behind_what_stands_there(rt: HostRuntime) -> Result<(), Fail> {
    let alloc = rt.alloc();
    let mut desk = MemoryDesk::new(alloc, two_files(alloc)?, Vec::new(alloc));
    agree(alloc, STEPS, |alloc, row| kept_call(alloc, &mut desk, row))?;
    Ok(())
}

const ROOMS: &str = r#"
    next a      => Err(Failed)
    room a 8    => Ok("")
    first a xyz => Ok("")
    room c 2    => Ok("")
    next a 1    => Err(Failed)
    next c 12   => Ok("")
    file a      => Ok("xyz")
    file c      => Ok("12")
"#;

#[test]
fn there_is_room_for_one_name(rt: HostRuntime) -> Result<(), Fail> {
    let alloc = rt.alloc();
    let mut desk = MemoryDesk::new(alloc, two_files(alloc)?, Vec::new(alloc));
    agree(alloc, ROOMS, |alloc, row| kept_call(alloc, &mut desk, row))?;
    Ok(())
}

const PIECES: &str = r#"
    piece a 0  => Ok("abc")
    piece a 2  => Ok("c")
    piece a 3  => Ok("")
    piece a 18446744073709551615 => Ok("")
    piece b 0  => Ok("")
    piece no 0 => Err(Failed)
    // Two bytes of room.
    piece a 0 2 => Ok("ab")
"#;

#[test]
fn a_piece_ends_with_the_file_or_its_room(rt: HostRuntime) -> Result<(), Fail> {
    let alloc = rt.alloc();
    let mut desk = SureDesk::new(alloc, two_files(alloc)?);
    agree(alloc, PIECES, |alloc, row| kept_call(alloc, &mut desk, row))?;
    Ok(())
}
