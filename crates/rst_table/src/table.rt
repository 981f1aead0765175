// What calls answer, beside what a table expects.
use std::alloc::{AllocError, Global};
use std::fmt::Debug;

/// Why a table and the calls don't agree.
#[derive(Debug, Drop)]
pub enum Unlike {
    /// These rows, each with what was answered.
    Rows(String),
    /// No row stands in the table.
    Empty,
    /// There was no memory to compare.
    NoMemory,
}

impl From<AllocError> for Unlike {
    fn from(_: AllocError) -> Unlike {
        Unlike::NoMemory
    }
}

// An answer as `Debug` writes it.
fn written<T: Debug + Drop>(alloc: Global, answer: Option<T>) -> Result<String, AllocError> {
    match answer {
        Some(found) => format!(in alloc; "{found:?}"),
        None => String::from_str(alloc, "none"),
    }
}

// The text that escapes stand for: `\n`, `\r`, `\t` and `\0` as in a string.
fn unescaped(alloc: Global, text: &str) -> Result<String, AllocError> {
    let mut read = String::new(alloc);
    let mut escaped = false;
    for letter in text.chars() {
        if escaped {
            read.push(meant(letter))?;
            escaped = false;
        } else if letter == '\\' {
            escaped = true;
        } else {
            read.push(letter)?;
        }
    }
    Ok(read)
}

// What a letter stands for behind a backslash.
fn meant(letter: char) -> char {
    match letter {
        'n' => '\n',
        'r' => '\r',
        't' => '\t',
        '0' => '\0',
        other => other,
    }
}

// Notes a row with another answer than it has.
fn note(wrong: &mut String, row: &str, found: &str) -> Result<(), AllocError> {
    wrong.push_str(row)?;
    wrong.push_str(" is ")?;
    wrong.push_str(found)?;
    wrong.push_str("; ")
}

/// Whether each row of a table has the answer that the call gives to what is asked there: text as `Debug` writes it, or `none`.
///
/// Blanks around both are no part of them, and `\n`, `\r`, `\t` and `\0` stand for what they do in a string, and `\` and another
/// letter for that letter. Empty lines are no rows, nor are
/// those that begin with `//`.
pub fn agree<T: Debug + Drop, F: FnMut(Global, &str) -> Option<T>>(
    alloc: Global,
    table: &str,
    mut answer: F,
) -> Result<(), Unlike>
    requires { (answer : _) (alloc : _) (asked : _) → F.pre answer alloc asked }
{
    let mut wrong = String::new(alloc);
    let mut empty = true;
    for line in table.lines() {
        let row = line.trim();
        if row.is_empty() || row.starts_with("//") {
            continue;
        }
        empty = false;
        let (asked, expected) = row.split_once("=>").unwrap_or((row, ""));
        let asked = unescaped(alloc, asked.trim())?;
        let found = written(alloc, answer(alloc, asked.as_str()))?;
        if found.as_str() != expected.trim() {
            note(&mut wrong, row, found.as_str())?;
        }
    }
    if empty {
        Err(Unlike::Empty)
    } else if wrong.is_empty() {
        Ok(())
    } else {
        Err(Unlike::Rows(wrong))
    }
}
