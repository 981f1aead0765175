// The header of a certificate.
ghost use Rattle.std.specs.Prelude.{◌≡◌, ◌≤◌, Some, IfOk};
ghost use Rattle.rst_cert_reader.specs.Headings.{Gives, Becomes, no_heading, with_line, number_in, version_in, name_behind, clock_in, kind_in};
ghost use Rattle.rst_cert_reader.specs.Kept.{with_name};

use rst_cert_lines::{Cursor, LineFault, counted};
use rst_lex::is_name;
use rst_outside::Name;
use std::alloc::Global;

/// The kinds of verdicts.
#[derive(Clone, Copy, Debug, PartialEq, Eq)]
pub enum CertKind {
    Known,
    Relation,
    Refuted,
    Never,
    Alignable,
    Unknown,
}

/// The lines of a header, in their order.
#[derive(Clone, Copy, Debug, PartialEq, Eq)]
pub enum HeadLine {
    Version,
    Form,
    Clock,
    Registers,
    Inputs,
    Outputs,
    Kind,
}

/// What the lines of a header say.
#[derive(Drop)]
pub struct Heading {
    pub version: u32,
    pub form: u32,
    pub clock: Option<Name>,
    pub registers: u16,
    pub inputs: u16,
    pub outputs: u16,
    pub kind: CertKind,
}

// A word and a number up to a limit.
#[tactic(auto, unfolding(crate::specs::Headings::number_in))]
pub(crate) fn read_number(line: &[u8], word: &[u8], most: u64) -> Result<u64, LineFault>
    ensures number { Gives (number_in word.now most line.now) result }
    ensures few { IfOk result (λ number. number ≤ most) }
{
    let mut cursor = Cursor::new(line);
    let number = counted(&mut cursor, word)?;
    if cursor.is_at_end() && number <= most {
        Ok(number)
    } else {
        Err(LineFault::Wrong)
    }
}

// Version 1 or 2.
#[tactic(auto, unfolding(crate::specs::Headings::version_in))]
fn read_version(line: &[u8]) -> Result<u64, LineFault>
    ensures number { Gives (version_in line.now) result }
    ensures few { IfOk result (λ number. number ≤ 2) }
{
    let number = read_number(line, b"reset-certificate", 2)?;
    if 1 <= number {
        Ok(number)
    } else {
        Err(LineFault::Wrong)
    }
}

// A clock of this name.
fn named_clock(alloc: Global, name: &[u8]) -> Result<Option<Name>, LineFault>
    ensures { Gives (name_behind (Some (tt, name.now))) result }
{
    if is_name(name) {
        Ok(Some(Name::new(alloc, name)?))
    } else {
        Err(LineFault::Wrong)
    }
}

// The clock's name, if there is one.
#[tactic(auto, unfolding(crate::specs::Headings::clock_in))]
fn read_clock(alloc: Global, line: &[u8]) -> Result<Option<Name>, LineFault>
    ensures { Gives (clock_in line.now) result }
{
    if line == b"noclock".as_slice() {
        return Ok(None);
    }
    let mut cursor = Cursor::new(line);
    cursor.after(b"clock ")?;
    named_clock(alloc, cursor.rest())
}

#[tactic(auto, unfolding(crate::specs::Headings::kind_in))]
fn read_kind(line: &[u8]) -> Result<CertKind, LineFault>
    ensures { Gives (kind_in line.now) result }
{
    if line == b"known".as_slice() {
        Ok(CertKind::Known)
    } else if line == b"relation".as_slice() {
        Ok(CertKind::Relation)
    } else if line == b"refuted".as_slice() {
        Ok(CertKind::Refuted)
    } else if line == b"never".as_slice() {
        Ok(CertKind::Never)
    } else if line == b"alignable".as_slice() {
        Ok(CertKind::Alignable)
    } else if line == b"unknown".as_slice() {
        Ok(CertKind::Unknown)
    } else {
        Err(LineFault::Wrong)
    }
}

impl Heading {
    /// The header that has said nothing yet.
    pub(crate) fn new() -> Heading
        ensures { result ≡ no_heading }
    {
        Heading {
            version: 0,
            form: 0,
            clock: None,
            registers: 0,
            inputs: 0,
            outputs: 0,
            kind: CertKind::Known,
        }
    }

    /// Reads the clock's line, by the name.
    pub(crate) fn read_name(&mut self, alloc: Global, name: &[u8]) -> Result<(), LineFault>
        ensures { Becomes (with_name self.old name.now) result self.new }
    {
        self.clock = named_clock(alloc, name)?;
        Ok(())
    }

    /// Reads a line.
    pub(crate) fn read(
        &mut self,
        alloc: Global,
        due: HeadLine,
        line: &[u8],
    ) -> Result<(), LineFault>
        ensures { Becomes (with_line due self.old line.now) result self.new }
    {
        match due {
            HeadLine::Version => self.version = read_version(line)? as u32,
            HeadLine::Form => self.form = read_number(line, b"form", 4_294_967_295)? as u32,
            HeadLine::Clock => self.clock = read_clock(alloc, line)?,
            HeadLine::Registers => self.registers = read_number(line, b"registers", 512)? as u16,
            HeadLine::Inputs => self.inputs = read_number(line, b"inputs", 256)? as u16,
            HeadLine::Outputs => self.outputs = read_number(line, b"outputs", 256)? as u16,
            HeadLine::Kind => self.kind = read_kind(line)?,
        }
        Ok(())
    }
}
