// Texts of at most 1,048,576 bytes, read or lexed many times over.
ghost use Rattle.std.specs.Prelude.{◌≤◌, length};

use crate::files::MOST;
use rst_lex::lex;
use std::alloc::Global;
use std::rt::Files;
use std::{fs, io};

// How many bytes a text has that are newlines: one look at each byte, and no more.
fn newlines(text: &[u8]) -> usize {
    text.iter().filter(|b| **b == b'\n').count()
}

// How many tokens a text has, 0 where it has a fault.
fn tokens(alloc: Global, text: &[u8]) -> usize {
    if text.len() > MOST {
        return 0;
    }
    match lex(alloc, text) {
        Ok(tokens) => tokens.len(),
        Err(_) => 0,
    }
}

/// Reads the file so many times, and prints the newlines that it saw in all.
pub(crate) fn read_file<R: Files + Print + AllocGlobal>(
    rt: &R,
    name: &str,
    times: u32,
) -> io::Result<()> {
    let mut seen = 0usize;
    for _ in 0..times {
        let text = fs::read(rt, name)?;
        seen = seen.saturating_add(newlines(&text));
    }
    println!(rt; "newlines {seen}")
}

/// Reads and lexes the file so many times, and prints the tokens that it saw in all.
pub(crate) fn lex_file<R: Files + Print + AllocGlobal>(
    rt: &R,
    name: &str,
    times: u32,
) -> io::Result<()> {
    let mut seen = 0usize;
    for _ in 0..times {
        let text = fs::read(rt, name)?;
        seen = seen.saturating_add(tokens(rt.alloc(), &text));
    }
    println!(rt; "tokens {seen}")
}
