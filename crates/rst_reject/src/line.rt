// The line of a refusal.

ghost use Rattle.std.specs.Prelude.{◌≡◌, ◌++◌, OnOk, IfOk};
ghost use Rattle.std.specs.Option.{option_copied};
ghost use Rattle.rst_reject.specs.Lines.{spaced, file_part, name_part, number_part, refusal_line};

use crate::reject::Reject;
use rst_outside::{Bytes, NoMemory};
use std::alloc::Global;

// A word behind a space.
fn put_spaced(text: &mut Vec<u8>, word: &[u8]) -> Result<(), NoMemory>
    ensures { OnOk result (text.new.items ≡ text.old.items ++ spaced word.now) }
{
    text.push(b' ')?;
    text.extend_from_slice(word)?;
    Ok(())
}

fn put_file(text: &mut Vec<u8>, word: Option<&[u8]>) -> Result<(), NoMemory>
    ensures { OnOk result (text.new.items ≡ text.old.items ++ file_part (option_copied word.entry)) }
{
    match word {
        None => Ok(()),
        Some(word) => put_spaced(text, word),
    }
}

fn put_name(text: &mut Vec<u8>, name: &[u8]) -> Result<(), NoMemory>
    ensures { OnOk result (text.new.items ≡ text.old.items ++ name_part name.now) }
{
    if name.is_empty() {
        return Ok(());
    }
    put_spaced(text, name)
}

fn put_number(alloc: Global, text: &mut Vec<u8>, number: u32) -> Result<(), NoMemory>
    ensures { OnOk result (text.new.items ≡ text.old.items ++ number_part number) }
{
    if number == 0 {
        return Ok(());
    }
    let digits = number.to_string(alloc)?;
    put_spaced(text, digits.as_bytes())
}

/// The line that is printed of a refusal: `rejected` and its code, and behind them the word of its file, its name and its number, each
/// behind a space, where there is one. `word` is that of the file, where the refusal is that of a file.
pub fn reject_line(alloc: Global, reject: &Reject, word: Option<&[u8]>) -> Result<Bytes, NoMemory>
    ensures { IfOk result (λ line. line ≡ refusal_line (option_copied word.entry) reject.now) }
{
    let mut text = Vec::new(alloc);
    text.extend_from_slice(b"rejected")?;
    put_spaced(&mut text, reject.code.name().as_bytes())?;
    put_file(&mut text, word)?;
    put_name(&mut text, reject.name.as_slice())?;
    put_number(alloc, &mut text, reject.number)?;
    text.push(b'\n')?;
    Bytes::new(alloc, &text)
}
