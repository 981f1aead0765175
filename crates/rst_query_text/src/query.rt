// Reads the text of a query.
use crate::Posing;
use rst_clause::{Clauses, Lit};
use rst_outside::NoMemory;
use std::alloc::Global;

// What a line asks for.
#[derive(Clone, Copy)]
enum Line {
    Free,
    And,
    Xor,
    Mux,
    Require,
    Nothing,
}

// What the reader is at.
#[derive(Drop)]
struct Reading {
    line: Line,
    numbers: Vec<i32>,
    word: Vec<u8>,
}

// The line that begins with the word.
fn line_of(word: &[u8]) -> Line {
    match word {
        b"free" => Line::Free,
        b"and" => Line::And,
        b"xor" => Line::Xor,
        b"mux" => Line::Mux,
        b"require" => Line::Require,
        _ => Line::Nothing,
    }
}

// The signed number that the word spells, if it is one.
fn number(word: &[u8]) -> Option<i32> {
    let mut value = 0u32;
    let mut negative = false;
    for byte in word {
        match byte {
            b'-' => negative = true,
            b'0'..=b'9' => {
                let digit = (*byte & 15) as u32;
                value = value.wrapping_mul(10).wrapping_add(digit);
            }
            _ => return None,
        }
    }
    let positive = (value & 0x7FFF_FFFF) as i32;
    Some(if negative { -positive } else { positive })
}

// A word ends.
fn end_word(r: &mut Reading) -> Result<(), NoMemory> {
    if r.word.is_empty() {
        return Ok(());
    }
    match number(&r.word) {
        Some(number) => r.numbers.push(number)?,
        None => r.line = line_of(&r.word),
    }
    r.word.clear();
    Ok(())
}

// The literals of the numbers; 0 is none.
fn literals(alloc: Global, numbers: &[i32]) -> Result<Vec<Lit>, NoMemory> {
    let mut lits = Vec::new(alloc);
    for number in numbers {
        if *number != 0 {
            lits.push(Lit::new(*number))?;
        }
    }
    Ok(lits)
}

// A line ends that adds to the query.
fn add_line(posing: &mut Posing, line: Line, lits: &[Lit]) -> Result<(), NoMemory> {
    match line {
        Line::And if lits.len() == 2 => posing.and(lits[0], lits[1]),
        Line::Xor if lits.len() == 2 => posing.xor(lits[0], lits[1]),
        Line::Mux if lits.len() == 3 => posing.mux(lits[0], lits[1], lits[2]),
        Line::Require => posing.require(lits),
        _ => Ok(()),
    }
}

// A line ends.
fn end_line(alloc: Global, posing: &mut Posing, r: &mut Reading) -> Result<(), NoMemory> {
    end_word(r)?;
    if matches!(r.line, Line::Free) {
        let free = r.numbers.first().copied().unwrap_or(0).unsigned_abs();
        *posing = Posing::new(alloc, free)?;
    } else {
        let lits = literals(alloc, &r.numbers)?;
        add_line(posing, r.line, &lits)?;
    }
    r.line = Line::Nothing;
    r.numbers.clear();
    Ok(())
}

/// The clauses of the query that the text spells.
pub fn read(alloc: Global, text: &[u8]) -> Result<Clauses, NoMemory> {
    let mut posing = Posing::new(alloc, 0)?;
    let mut r = Reading {
        line: Line::Nothing,
        numbers: Vec::new(alloc),
        word: Vec::new(alloc),
    };
    for byte in text {
        match byte {
            b'\n' => end_line(alloc, &mut posing, &mut r)?,
            b' ' | b'\r' | b'\t' => end_word(&mut r)?,
            _ => r.word.push(*byte)?,
        }
    }
    end_line(alloc, &mut posing, &mut r)?;
    Ok(posing.finish())
}
