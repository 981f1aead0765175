// What the texts of files come to, in words that can be compared.
ghost use Rattle.std.specs.Prelude.{◌≤◌, length, IfSome};
ghost use Rattle.std.specs.List.{All};
ghost use Rattle.rst_design.specs.Texts.{IsShort};

use rst_design::read_design;
use rst_flow::Net;
use rst_reject::{Reject, Stop, reject_line};
use std::alloc::{AllocError, Global};
use std::str;
use std::test::Fail;

// The files of these texts, if they are few and short enough.
fn files_of(alloc: Global, texts: &[&str]) -> Option<Vec<Vec<u8>>>
    ensures few { IfSome result (λ files. length files.items ≤ 64) }
    ensures short { IfSome result (λ files. All IsShort files.items) }
{
    if texts.len() > 64 {
        return None;
    }
    let mut files = Vec::new(alloc);
    for text in texts {
        if text.len() > 1_048_576 {
            return None;
        }
        let file = Vec::from_slice(alloc, text.as_bytes()).ok()?;
        files.push(file).ok()?;
    }
    Some(files)
}

// How many signals, units, clocked blocks and outputs there are.
fn counts(alloc: Global, net: &Net) -> Result<String, AllocError> {
    format!(in alloc;
        "signals {} units {} clocked {} outputs {}",
        net.signals.len(),
        net.units.len(),
        net.clocked.len(),
        net.outputs.len()
    )
}

// The line of a refusal, where the files have the words `f0`, `f1` and so on.
fn line(alloc: Global, reject: &Reject) -> Result<String, Fail> {
    let file = reject.file.unwrap_or(0);
    let word = format!(in alloc; "f{file}")?;
    let word = match reject.file {
        None => None,
        Some(_) => Some(word.as_bytes()),
    };
    let bytes = reject_line(alloc, reject, word).ok().ok_or("memory")?;
    let text = str::from_utf8(bytes.as_slice()).unwrap_or("?");
    Ok(String::from_str(alloc, text)?)
}

/// What texts come to below a top: the counts of the netlist, or the line of the refusal.
pub(crate) fn answer(
    alloc: Global,
    texts: &[&str],
    top: &str,
    clock: Option<&str>,
) -> Result<String, Fail> {
    let files = files_of(alloc, texts).ok_or("files")?;
    let clock = clock.map(|name| name.as_bytes());
    match read_design(alloc, &files, top.as_bytes(), clock) {
        Ok(net) => Ok(counts(alloc, &net)?),
        Err(Stop::Rejected(reject)) => line(alloc, &reject),
        Err(Stop::NoMemory) => Ok(String::from_str(alloc, "no memory")?),
    }
}
