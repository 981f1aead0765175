// What is due in a certificate.
ghost use Rattle.std.specs.Prelude.{◌≡◌, IfOk, if◌then◌else◌};
ghost use Rattle.rst_cert_reader.specs.declared.gathered.Gathered.{Gathered};
ghost use Rattle.rst_cert_reader.specs.Headings.{with_line};
ghost use Rattle.rst_cert_reader.specs.Sections.{with_item, begun_by, is_clause, is_long_log};
ghost use Rattle.rst_cert_reader.specs.Readings.{first_section, stage_behind, stage_behind_head, stage_with, told, with_head, with_begun, with_more, taken, endless, bad_line};
ghost use Rattle.rst_cert_reader.specs.Kept.{behind_fault, name_taken, with_clause, clause_read};
ghost use Rattle.rst_cert_reader.specs.Keeping.{is_log};
ghost use Rattle.rst_cert_reader.specs.declared.heading.Heading.{Heading};

use crate::gathered::{Gathered, is_clause, is_long_log};
use crate::heading::{CertKind, HeadLine, Heading};
use crate::section::Section;
use rst_cert_lines::LineFault;
use rst_clause::Clause;
use rst_outside::NoMemory;
use std::alloc::Global;

/// What is due, or the fault that came first.
#[derive(Clone, Copy, Debug, PartialEq, Eq)]
pub enum Stage {
    /// A line of the header.
    Head(HeadLine),
    /// The first line of a section.
    Begin(Section),
    /// So many lines of a section.
    Items(Section, u64),
    /// Clauses of a log that are more than any text has.
    Endless,
    /// The line `end`.
    End,
    /// Nothing.
    Closed,
    /// The header was at fault.
    BadHead,
    /// The line of this number was the first at fault.
    Bad(u32),
}

fn first_section(kind: CertKind) -> Section
    ensures { result ≡ first_section kind }
{
    match kind {
        CertKind::Known | CertKind::Relation => Section::FreeSteps,
        CertKind::Refuted | CertKind::Alignable => Section::Steps,
        CertKind::Never => Section::StateA,
        CertKind::Unknown => Section::Equal,
    }
}

fn behind_in_relation(section: Section) -> Stage
    ensures { result ≡ stage_behind CertKind.Relation section }
{
    match section {
        Section::FreeSteps => Stage::Begin(Section::Equal),
        Section::Equal => Stage::Begin(Section::Blocked),
        Section::Blocked => Stage::Begin(Section::SplitLog),
        Section::SplitLog => Stage::Begin(Section::LandLog),
        _ => Stage::End,
    }
}

fn behind_in_refuted(section: Section) -> Stage
    ensures { result ≡ stage_behind CertKind.Refuted section }
{
    match section {
        Section::Steps => Stage::Begin(Section::StateA),
        Section::StateA => Stage::Begin(Section::StateB),
        Section::StateB => Stage::Begin(Section::Word),
        _ => Stage::End,
    }
}

fn behind_in_never(section: Section) -> Stage
    ensures { result ≡ stage_behind CertKind.Never section }
{
    match section {
        Section::StateA => Stage::Begin(Section::StateB),
        Section::StateB => Stage::Begin(Section::Blocked),
        Section::Blocked => Stage::Begin(Section::Freed),
        Section::Freed => Stage::Begin(Section::EscapeLog),
        _ => Stage::End,
    }
}

fn behind_in_alignable(section: Section) -> Stage
    ensures { result ≡ stage_behind CertKind.Alignable section }
{
    match section {
        Section::Steps => Stage::Begin(Section::StateA),
        Section::StateA => Stage::Begin(Section::StateB),
        Section::StateB => Stage::Begin(Section::Word),
        Section::Word => Stage::Begin(Section::Blocked),
        Section::Blocked => Stage::Begin(Section::Freed),
        Section::Freed => Stage::Begin(Section::SplitLog),
        Section::SplitLog => Stage::Begin(Section::StuckLog),
        _ => Stage::End,
    }
}

fn behind_in_unknown(section: Section) -> Stage
    ensures { result ≡ stage_behind CertKind.Unknown section }
{
    match section {
        Section::Equal => Stage::Begin(Section::Journal),
        _ => Stage::End,
    }
}

// What is due behind a section.
fn stage_behind(kind: CertKind, section: Section) -> Stage
    ensures { result ≡ stage_behind kind section }
{
    match kind {
        CertKind::Known => Stage::End,
        CertKind::Relation => behind_in_relation(section),
        CertKind::Refuted => behind_in_refuted(section),
        CertKind::Never => behind_in_never(section),
        CertKind::Alignable => behind_in_alignable(section),
        CertKind::Unknown => behind_in_unknown(section),
    }
}

/// What is due behind a line of the header.
pub(crate) fn stage_behind_head(due: HeadLine, kind: CertKind) -> Stage
    ensures { result ≡ stage_behind_head due kind }
{
    match due {
        HeadLine::Version => Stage::Head(HeadLine::Form),
        HeadLine::Form => Stage::Head(HeadLine::Clock),
        HeadLine::Clock => Stage::Head(HeadLine::Registers),
        HeadLine::Registers => Stage::Head(HeadLine::Inputs),
        HeadLine::Inputs => Stage::Head(HeadLine::Outputs),
        HeadLine::Outputs => Stage::Head(HeadLine::Kind),
        HeadLine::Kind => Stage::Begin(first_section(kind)),
    }
}

/// What is due where so many lines of a section are left.
pub(crate) fn stage_with(kind: CertKind, section: Section, left: u64) -> Stage
    ensures { result ≡ stage_with kind section left }
{
    if left == 0 {
        stage_behind(kind, section)
    } else {
        Stage::Items(section, left)
    }
}

#[tactic(auto, using(crate::proofs::Stages::told_head))]
fn take_head(
    alloc: Global,
    heading: &mut Heading,
    due: HeadLine,
    line: &[u8],
) -> Result<Stage, NoMemory>
    ensures { IfOk result (λ next. (gathered : Gathered) → told heading.new gathered next ≡ with_head due gathered (with_line due heading.old line.now)) }
{
    match heading.read(alloc, due, line) {
        Ok(()) => Ok(stage_behind_head(due, heading.kind)),
        Err(LineFault::Wrong) => Ok(Stage::BadHead),
        Err(LineFault::NoMemory) => Err(NoMemory),
    }
}

#[tactic(auto, using(crate::proofs::Stages::told_with))]
fn take_first(
    alloc: Global,
    heading: &Heading,
    gathered: &mut Gathered,
    section: Section,
    number: u32,
    line: &[u8],
) -> Result<Stage, NoMemory>
    ensures { IfOk result (λ next. told heading.now gathered.new next ≡ with_begun heading.now section number line.now (begun_by heading.now section gathered.old line.now)) }
{
    match gathered.read_first_line(alloc, heading, section, line) {
        Ok(count) => Ok(stage_with(heading.kind, section, count)),
        Err(LineFault::Wrong) if is_long_log(section, line) => Ok(Stage::Endless),
        Err(LineFault::Wrong) => Ok(Stage::Bad(number)),
        Err(LineFault::NoMemory) => Err(NoMemory),
    }
}

#[tactic(auto, using(crate::proofs::Stages::told_with))]
fn take_item(
    alloc: Global,
    heading: &Heading,
    gathered: &mut Gathered,
    section: Section,
    left: u64,
    number: u32,
    line: &[u8],
) -> Result<Stage, NoMemory>
    ensures { IfOk result (λ next. told heading.now gathered.new next ≡ with_more heading.now section left number (with_item heading.now section gathered.old line.now)) }
{
    match gathered.read_item(alloc, heading, section, line) {
        Ok(()) => Ok(stage_with(heading.kind, section, left.saturating_sub(1))),
        Err(LineFault::Wrong) => Ok(Stage::Bad(number)),
        Err(LineFault::NoMemory) => Err(NoMemory),
    }
}

// Reads a line where clauses of a log are due without an end.
fn take_clause(alloc: Global, number: u32, line: &[u8]) -> Result<Stage, NoMemory>
    ensures { IfOk result (λ next. (heading : Heading) → (gathered : Gathered) → told heading gathered next ≡ (if is_clause line.now then endless else bad_line number)) }
{
    if is_clause(alloc, line)? {
        Ok(Stage::Endless)
    } else {
        Ok(Stage::Bad(number))
    }
}

/// Reads the clock's line, by the name, and answers what is due behind it.
pub(crate) fn take_name(
    alloc: Global,
    heading: &mut Heading,
    stage: Stage,
    number: u32,
    name: &[u8],
) -> Result<Stage, NoMemory>
    ensures { IfOk result (λ next. (gathered : Gathered) → told heading.new gathered next ≡ name_taken heading.old gathered stage number name.now) }
{
    if !matches!(stage, Stage::Head(HeadLine::Clock)) {
        return Ok(stage_behind_fault(stage, number));
    }
    match heading.read_name(alloc, name) {
        Ok(()) => Ok(Stage::Head(HeadLine::Registers)),
        Err(LineFault::Wrong) => Ok(Stage::BadHead),
        Err(LineFault::NoMemory) => Err(NoMemory),
    }
}

#[tactic(auto, using(crate::proofs::Stages::told_with))]
fn take_of_log(
    heading: &Heading,
    gathered: &mut Gathered,
    section: Section,
    left: u64,
    number: u32,
    clause: Clause,
) -> Result<Stage, NoMemory>
    ensures { IfOk result (λ next. told heading.now gathered.new next ≡ with_more heading.now section left number (with_clause section gathered.old clause)) }
{
    match gathered.keep_clause(section, clause) {
        Ok(()) => Ok(stage_with(heading.kind, section, left.saturating_sub(1))),
        Err(LineFault::Wrong) => Ok(Stage::Bad(number)),
        Err(LineFault::NoMemory) => Err(NoMemory),
    }
}

/// Takes the clause of the line of this number, and answers what is due behind it.
pub(crate) fn take_literals(
    heading: &Heading,
    gathered: &mut Gathered,
    stage: Stage,
    number: u32,
    clause: Clause,
) -> Result<Stage, NoMemory>
    ensures { IfOk result (λ next. told heading.now gathered.new next ≡ clause_read heading.now gathered.old stage number clause) }
{
    match stage {
        Stage::Items(section, left) => take_of_log(
            heading, gathered, section, left, number, clause,
        ),
        Stage::Endless => {
            drop(clause);
            Ok(Stage::Endless)
        }
        _ => {
            drop(clause);
            Ok(stage_behind_fault(stage, number))
        }
    }
}

/// Reads the line of this number, and answers what is due behind it.
pub(crate) fn take(
    alloc: Global,
    heading: &mut Heading,
    gathered: &mut Gathered,
    stage: Stage,
    number: u32,
    line: &[u8],
) -> Result<Stage, NoMemory>
    ensures { IfOk result (λ next. told heading.new gathered.new next ≡ taken heading.old gathered.old stage number line.now) }
{
    match stage {
        Stage::Head(due) => take_head(alloc, heading, due, line),
        Stage::Begin(section) => take_first(alloc, heading, gathered, section, number, line),
        Stage::Items(section, left) => {
            take_item(alloc, heading, gathered, section, left, number, line)
        }
        Stage::Endless => take_clause(alloc, number, line),
        Stage::End if line == b"end".as_slice() => Ok(Stage::Closed),
        Stage::End | Stage::Closed => Ok(Stage::Bad(number)),
        Stage::BadHead | Stage::Bad(_) => Ok(stage),
    }
}

/// Whether the section is a log.
pub(crate) fn is_log(section: Section) -> bool
    ensures { result ≡ is_log section }
{
    match section {
        Section::SplitLog | Section::LandLog | Section::EscapeLog | Section::StuckLog => true,
        Section::FreeSteps
        | Section::Steps
        | Section::Word
        | Section::Equal
        | Section::StateA
        | Section::StateB
        | Section::Blocked
        | Section::Freed
        | Section::Journal => false,
    }
}

/// What is due behind the line of this number that is at fault.
pub(crate) fn stage_behind_fault(stage: Stage, number: u32) -> Stage
    ensures { (heading : Heading) → (gathered : Gathered) → told heading gathered result ≡ behind_fault stage number }
{
    match stage {
        Stage::Head(_) | Stage::BadHead => Stage::BadHead,
        Stage::Bad(first) => Stage::Bad(first),
        Stage::Begin(_) | Stage::Items(_, _) | Stage::Endless | Stage::End | Stage::Closed => {
            Stage::Bad(number)
        }
    }
}
