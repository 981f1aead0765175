// What is kept of a line.
ghost use Rattle.std.specs.Prelude.{◌≡◌};
ghost use Rattle.std.specs.List.{list_all};
ghost use Rattle.rst_lex.specs.Bytes.{is_letter, is_name_start, is_name_byte};
ghost use Rattle.rst_lex.specs.Words.{is_identifier};
ghost use Rattle.rst_cert_lines.specs.Reading.{literal_at};
ghost use Rattle.rst_cert_reader.specs.Headings.{Gives, whole};

use crate::gathered::is_digit;
use rst_cert_lines::{Cursor, LineFault};
use rst_clause::Lit;

/// What is kept of the line under way.
#[derive(Clone, Copy, Debug, PartialEq, Eq)]
pub enum Line {
    /// Its bytes.
    Bytes,
    /// Nothing: it is at fault, whatever follows in it.
    Nothing,
    /// Of the clock's line the bytes of the name.
    Name,
    /// Of the first line of a log that its number of clauses is long.
    Digits,
    /// Of a clause the literals up to its last space, and the bytes behind that.
    Clause,
}

fn is_letter(byte: u8) -> bool
    ensures { result ≡ is_letter byte }
{
    (b'A' <= byte && byte <= b'Z') || (b'a' <= byte && byte <= b'z')
}

fn is_name_start(byte: u8) -> bool
    ensures { result ≡ is_name_start byte }
{
    is_letter(byte) || byte == b'_'
}

/// Whether the byte may stand in a name.
pub(crate) fn is_name_byte(byte: u8) -> bool
    ensures { result ≡ is_name_byte byte }
{
    is_letter(byte) || is_digit(byte) || byte == b'_' || byte == b'$'
}

fn are_name_bytes(bytes: &[u8]) -> bool
    ensures { result ≡ list_all is_name_byte bytes.now }
{
    bytes.iter().all(|byte| is_name_byte(*byte))
}

/// Whether the bytes are an identifier.
pub(crate) fn is_identifier(bytes: &[u8]) -> bool
    ensures { result ≡ is_identifier bytes.now }
{
    match bytes {
        [] => false,
        [first, rest @ ..] => is_name_start(*first) && are_name_bytes(rest),
    }
}

/// The literal that the bytes are.
pub(crate) fn read_literal(word: &[u8]) -> Result<Lit, LineFault>
    ensures { Gives (whole (literal_at word.now)) result }
{
    let mut cursor = Cursor::new(word);
    let found = cursor.literal()?;
    if cursor.is_at_end() {
        Ok(found)
    } else {
        Err(LineFault::Wrong)
    }
}
