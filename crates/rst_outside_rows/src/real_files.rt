// The two adapters over the real outside, which no contract tells.
use crate::bench::{call, long_text, read_in_pieces, save_in_pieces};
use rst_outside::{Desk, Failed, FileDesk, LoadError, Sink, StreamSink};
use rst_table::{Unlike, agree};
use std::alloc::Global;
use std::fs;
use std::test::Fail;

const NAME: &str = "rst_outside_rows_file";

fn length<K: Desk>(alloc: Global, desk: &mut K, limit: u32) -> Result<usize, LoadError> {
    let bytes = desk.load(alloc, NAME, u64::from(limit))?;
    Ok(bytes.len())
}

// The number of bytes that a load gives within a limit, or its error.
fn loaded<K: Desk>(alloc: Global, desk: &mut K, limit: &str) -> Option<Result<usize, LoadError>> {
    let limit = limit.parse::<u32>().ok()?;
    Some(length(alloc, desk, limit))
}

// Whether a text stands under a name, read in pieces of so many bytes.
fn reads<K: Desk>(
    alloc: Global,
    desk: &mut K,
    name: &str,
    size: usize,
    text: &[u8],
) -> Result<bool, Failed> {
    let back = read_in_pieces(alloc, desk, name, size)?;
    Ok(back.as_slice() == text)
}

// To the last byte of the limit and not past it.
const LIMITS: &str = "
    200000 => Ok(200000)
    199999 => Err(TooLong)
";

#[test]
fn a_file_of_many_pieces(rt: HostRuntime) -> Result<(), Fail> {
    let alloc = rt.alloc();
    let mut desk = FileDesk::new(&rt);
    let text = long_text(alloc, 200_000)?;
    save_in_pieces(&mut desk, NAME, &text, 65_536)?;
    assert!(rt; reads(alloc, &mut desk, NAME, 10_007, &text)?);
    agree(alloc, LIMITS, |alloc, row| loaded(alloc, &mut desk, row))?;
    fs::remove_file(&rt, NAME)?;
    Ok(())
}

#[test]
fn a_first_piece_goes_in_place_of_what_stood_there(rt: HostRuntime) -> Result<(), Fail> {
    let alloc = rt.alloc();
    let name = "rst_outside_rows_replaced";
    let mut desk = FileDesk::new(&rt);
    save_in_pieces(&mut desk, name, b"what stood there", 65_536)?;
    desk.save_piece(name, true, b"in")?;
    desk.save_piece(name, false, b" place")?;
    assert!(rt; reads(alloc, &mut desk, name, 3, b"in place")?);
    fs::remove_file(&rt, name)?;
    Ok(())
}

const NO_BYTE: &str = r#"
    next rst_outside_rows_empty    => Ok("")
    piece rst_outside_rows_empty 0 => Ok("")
    piece rst_outside_rows_empty 1 => Ok("")
    load rst_outside_rows_empty 0  => Ok("")
"#;

#[test]
fn a_file_of_no_byte(rt: HostRuntime) -> Result<(), Fail> {
    let alloc = rt.alloc();
    let mut desk = FileDesk::new(&rt);
    agree(alloc, NO_BYTE, |alloc, row| call(alloc, &mut desk, row))?;
    fs::remove_file(&rt, "rst_outside_rows_empty")?;
    let gone = "piece rst_outside_rows_empty 0 => Err(Failed)";
    agree(alloc, gone, |alloc, row| call(alloc, &mut desk, row))?;
    Ok(())
}

const FOLDER: &str = "
    load rst_outside_rows_folder 10 => Err(Failed)
    piece rst_outside_rows_folder 0 => Err(Failed)
    first rst_outside_rows_folder x => Err(Failed)
    next rst_outside_rows_folder x  => Err(Failed)
";

#[test]
fn a_folder_in_place_of_a_file(rt: HostRuntime) -> Result<(), Fail> {
    let alloc = rt.alloc();
    let mut desk = FileDesk::new(&rt);
    fs::create_dir(&rt, "rst_outside_rows_folder")?;
    agree(alloc, FOLDER, |alloc, row| call(alloc, &mut desk, row))?;
    fs::remove_dir(&rt, "rst_outside_rows_folder")?;
    Ok(())
}

const NAMES: &str = r"
    first rst_outside_rows_no_such_folder/file x => Err(Failed)
    next rst_outside_rows_no_such_folder/file x  => Err(Failed)
    first rst_outside_rows\0file x               => Err(Failed)
";

#[test]
fn a_name_that_cannot_be_written(rt: HostRuntime) -> Result<(), Unlike> {
    let mut desk = FileDesk::new(&rt);
    agree(rt.alloc(), NAMES, |alloc, row| call(alloc, &mut desk, row))
}

#[test]
fn the_standard_output(rt: HostRuntime) {
    let mut sink = StreamSink::new(&rt);
    assert!(rt; sink.put(b"one line\n").is_ok());
    assert!(rt; sink.put(b"").is_ok());
}
