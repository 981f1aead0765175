// A run of one command over a script `s` and the sources `t.v` and `u.v` in memory.
ghost use Rattle.std.specs.Prelude.{◌≡◌, IfOk};

use rst_outside::{Bytes, DeskFile, MemoryDesk, MemorySink, Name, NoMemory};
use rst_sign::{Outcome, run};
use std::alloc::Global;
use std::str;
use std::test::Fail;

/// The files of a run.
#[derive(Clone, Copy)]
pub(crate) struct Texts {
    /// The script, under `s`.
    pub(crate) script: &'static str,
    /// The source under `t.v`.
    pub(crate) source: &'static str,
    /// The source under `u.v`.
    pub(crate) other: &'static str,
}

impl Texts {
    /// The same as bytes.
    pub(crate) fn files(self) -> Files<'static> {
        Files {
            script: self.script.as_bytes(),
            source: self.source.as_bytes(),
            other: self.other.as_bytes(),
        }
    }
}

/// Which calls of the desk and of the sink are to fail, each numbered from 0.
#[derive(Clone, Copy)]
pub(crate) struct Failing {
    pub(crate) desk: &'static [u32],
    pub(crate) sink: &'static [u32],
}

/// No call fails.
pub(crate) const SURE: Failing = Failing {
    desk: &[],
    sink: &[],
};

fn file(alloc: Global, name: &str, bytes: &[u8]) -> Result<DeskFile, NoMemory>
    ensures { IfOk result (λ file. file.name ≡ name.now) }
{
    Ok(DeskFile {
        name: Name::new(alloc, name.as_bytes())?,
        bytes: Bytes::new(alloc, bytes)?,
    })
}

// A desk with the three files, and room for a certificate under `c`.
fn desk_with(alloc: Global, texts: Files<'_>, failing: &[u32]) -> Result<MemoryDesk, NoMemory> {
    let mut files = Vec::new(alloc);
    files.push(file(alloc, "s", texts.script)?)?;
    files.push(file(alloc, "t.v", texts.source)?)?;
    files.push(file(alloc, "u.v", texts.other)?)?;
    let mut desk = MemoryDesk::new(alloc, files, Vec::from_slice(alloc, failing)?);
    desk.reserve("c", 16_384)?;
    Ok(desk)
}

// A sink with room for a text.
fn sink_with(alloc: Global, failing: &[u32]) -> Result<MemorySink, NoMemory> {
    let mut sink = MemorySink::new(alloc, Vec::from_slice(alloc, failing)?);
    sink.reserve(16_384)?;
    Ok(sink)
}

// The words of a line, parted by single spaces; none of an empty line.
fn words_of(alloc: Global, line: &str) -> Result<Vec<String>, NoMemory> {
    let mut words = Vec::new(alloc);
    if line.is_empty() {
        return Ok(words);
    }
    for word in line.split(' ') {
        words.push(String::from_str(alloc, word)?)?;
    }
    Ok(words)
}

// What an outcome keeps: its exit status, whether there is a verdict, and the places of the words of a refusal and of a
// failed load.
fn kept(alloc: Global, outcome: &Outcome) -> Result<String, Fail> {
    let mut text = format!(in alloc; "{}", outcome.status.number())?;
    if outcome.verdict.is_some() {
        text.push_str(" decided")?;
    }
    if let Some(reject) = &outcome.reject {
        if let Some(place) = reject.file {
            text.push_str(format!(in alloc; " file {place}")?.as_str())?;
        }
    }
    if let Some(place) = outcome.unread {
        text.push_str(format!(in alloc; " unread {place}")?.as_str())?;
    }
    text.push_str("\n")?;
    Ok(text)
}

// What an outcome keeps, what was put, and what is under `c`.
fn left(alloc: Global, kept: String, put: &[u8], cert: Option<&[u8]>) -> Result<String, Fail> {
    let mut text = kept;
    text.push_str(str::from_utf8(put).unwrap_or("?"))?;
    if let Some(cert) = cert {
        text.push_str(str::from_utf8(cert).unwrap_or("?"))?;
    }
    Ok(text)
}

/// The texts of a run's files, as bytes.
#[derive(Clone, Copy)]
pub(crate) struct Files<'a> {
    pub(crate) script: &'a [u8],
    pub(crate) source: &'a [u8],
    pub(crate) other: &'a [u8],
}

/// Runs the command of a line, and says what it left: a line of what the outcome keeps, the text put, and the certificate.
pub(crate) fn run_line(
    alloc: Global,
    line: &str,
    files: Files<'_>,
    failing: Failing,
) -> Result<String, Fail> {
    let words = words_of(alloc, line)?;
    let mut desk = desk_with(alloc, files, failing.desk)?;
    let mut sink = sink_with(alloc, failing.sink)?;
    let outcome = run(alloc, &words, &mut desk, &mut sink);
    let kept = kept(alloc, &outcome);
    drop(outcome);
    left(alloc, kept?, sink.taken(), desk.file("c"))
}

/// The same over these texts, where no call fails.
pub(crate) fn run_texts(alloc: Global, line: &str, texts: Texts) -> Result<String, Fail> {
    run_line(alloc, line, texts.files(), SURE)
}
