// Certificates, read in pieces.
ghost use Rattle.std.specs.Prelude.{◌≡◌, ◌==◌, ◌++◌, ℕ, List, [], IfOk, IfSome, IfNone, OnOk, OnErr, IsSome, None, Some, Ok, Err, option_map, codes};
ghost use Rattle.rst_certificate.specs.CertText.{cert_text};
ghost use Rattle.rst_cert_lines.specs.Reading.{after, literal_at};
ghost use Rattle.rst_cert_reader.specs.Headings.{whole};
ghost use Rattle.rst_cert_reader.specs.Readings.{endless, verdict_of, cert_from, cert_of, Answers};
ghost use Rattle.rst_cert_reader.specs.Kept.{StandsFor};
ghost use Rattle.rst_cert_reader.specs.Keeping.{whole_ends, long_ends, name_ends, literals_end, clause_ends, line_ends, line_lost, with_byte, name_goes, digits_go, with_literal, literal_goes, word_goes, clause_goes, byte_goes, bytes_go, name_begun, digits_begun, clause_begun, long_begun, readied, line_goes, kept_behind, kept_all, kept_finished, kept_start};
ghost use Rattle.rst_cert_reader.specs.declared.stage.Stage.TheVariants.{Closed};

use crate::gathered::{Gathered, is_digit, is_long_log};
use crate::heading::{CertKind, HeadLine, Heading};
use crate::line::{Line, is_identifier, is_name_byte, read_literal};
use crate::section::Section;
use crate::stage::{Stage, is_log, stage_behind_fault, take, take_literals, take_name};
use rst_cert_lines::{Cursor, LineFault};
use rst_clause::{Clause, Lit};
use rst_outside::NoMemory;
use rst_verdict::{Cert, Verdict};
use std::alloc::Global;
use std::marker::Model;
use std::mem;

// How many bytes of a line are kept before it is asked whether it can still be one of the format.
const LONG: usize = 4_096;

/// Why a text isn't a certificate.
#[derive(Clone, Copy, Debug, PartialEq, Eq)]
pub enum CertFault {
    /// One of the first seven lines breaks the format.
    BadHeader,
    /// The line of this number, counted from 1, is the first that breaks the format.
    BadLine(u32),
    /// The text doesn't end with a line `end`.
    Cut,
    /// Memory ran out.
    NoMemory,
}

/// Reads a certificate piece by piece, so that neither its text nor a long line of it is held whole.
///
/// Of the line under way at most 4,096 bytes are kept. A longer line is at fault, and nothing of it is kept,
/// but for three. Of the clock's line the name is kept, of the first line of a log only that its number is
/// long, and of a clause its literals and the bytes behind its last space, of which there are at most as many.
/// Contracts see what is kept, and speak by the texts that a reader stands for (`StandsFor`): a new one
/// stands for the empty text. Once memory ran out it stands for none.
#[derive(Drop)]
pub struct CertReader {
    alloc: Global,
    heading: Heading,
    gathered: Gathered,
    stage: Stage,
    number: u32,
    ends: bool,
    line: Line,
    literals: Clause,
    partial: Vec<u8>,
    refused: bool,
}

impl Model for CertReader {
    ghost use Rattle.std.specs.Prelude.{Option, None, Some, if◌then◌else◌};
    ghost use Rattle.rst_cert_reader.specs.Readings.{told};
    ghost use Rattle.rst_cert_reader.specs.Kept.{Kept};

    ghost Value = { Option Kept };

    ghost view = { λ r. if r.refused then None else Some (record { reading = told r.heading r.gathered r.stage; number = r.number; ends = r.ends; line = r.line; literals = r.literals; partial = r.partial.items }) };
}

impl CertReader {
    /// A reader of no bytes.
    #[tactic(auto, using(crate::proofs::Keeping::stands_at_first))]
    pub fn new(alloc: Global) -> Result<CertReader, NoMemory>
        ensures { IfOk result (λ reader. StandsFor reader []) }
    {
        CertReader::fresh(alloc)
    }

    fn fresh(alloc: Global) -> Result<CertReader, NoMemory>
        ensures { IfOk result (λ reader. reader ≡ Some kept_start) }
    {
        Ok(CertReader {
            alloc,
            heading: Heading::new(),
            gathered: Gathered::new(alloc),
            stage: Stage::Head(HeadLine::Version),
            number: 0,
            ends: false,
            line: Line::Bytes,
            literals: Clause::new(alloc),
            partial: Vec::new(alloc),
            refused: false,
        })
    }

    // Reads the line that ends here.
    #[tactic(auto, using(crate::proofs::Stages::taken_told))]
    fn end_whole(&mut self) -> Result<(), NoMemory>
        ensures { OnOk result (self.new ≡ option_map whole_ends self.old) }
    {
        let number = self.number.saturating_add(1);
        let line = self.partial.as_slice();
        let ends = line == b"end".as_slice();
        let stage = take(
            self.alloc,
            &mut self.heading,
            &mut self.gathered,
            self.stage,
            number,
            line,
        )?;
        self.stage = stage;
        self.number = number;
        self.ends = ends;
        self.line = Line::Bytes;
        self.literals = Clause::new(self.alloc);
        self.partial.clear();
        Ok(())
    }

    // Ends a long line, behind which all was read.
    fn end_long(&mut self)
        ensures { self.new ≡ option_map (λ k. long_ends k k.reading) self.old }
    {
        self.number = self.number.saturating_add(1);
        self.ends = false;
        self.line = Line::Bytes;
        self.literals = Clause::new(self.alloc);
        self.partial = Vec::new(self.alloc);
    }

    // Ends the clock's line.
    #[tactic(auto, using(crate::proofs::Stages::name_told))]
    fn end_name(&mut self) -> Result<(), NoMemory>
        ensures { OnOk result (self.new ≡ option_map name_ends self.old) }
    {
        let stage = take_name(
            self.alloc,
            &mut self.heading,
            self.stage,
            self.number.saturating_add(1),
            self.partial.as_slice(),
        )?;
        self.stage = stage;
        self.end_long();
        Ok(())
    }

    // Ends the first line of a log with a long number.
    fn end_digits(&mut self)
        ensures { self.new ≡ option_map (λ k. long_ends k endless) self.old }
    {
        self.stage = Stage::Endless;
        self.end_long();
    }

    // Ends a clause.
    #[tactic(auto, using(crate::proofs::Stages::literals_told))]
    fn end_literals(&mut self) -> Result<(), NoMemory>
        ensures { OnOk result (self.new ≡ option_map literals_end self.old) }
    {
        let clause = mem::replace(&mut self.literals, Clause::new(self.alloc));
        let stage = take_literals(
            &self.heading,
            &mut self.gathered,
            self.stage,
            self.number.saturating_add(1),
            clause,
        )?;
        self.stage = stage;
        self.end_long();
        Ok(())
    }

    // Ends a line that began as a clause.
    fn end_clause(&mut self) -> Result<(), NoMemory>
        ensures { OnOk result (self.new ≡ option_map clause_ends self.old) }
    {
        if self.partial.as_slice() == b"0".as_slice() {
            self.end_literals()
        } else {
            self.lose_line();
            self.end_long();
            Ok(())
        }
    }

    fn end_line(&mut self) -> Result<(), NoMemory>
        ensures { OnOk result (self.new ≡ option_map line_ends self.old) }
    {
        match self.line {
            Line::Bytes => self.end_whole(),
            Line::Nothing => {
                self.end_long();
                Ok(())
            }
            Line::Name => self.end_name(),
            Line::Digits => {
                self.end_digits();
                Ok(())
            }
            Line::Clause => self.end_clause(),
        }
    }

    // Drops the line under way, which is at fault whatever follows in it.
    #[tactic(auto, using(crate::proofs::Stages::told_stage))]
    fn lose_line(&mut self)
        ensures { self.new ≡ option_map line_lost self.old }
    {
        self.stage = stage_behind_fault(self.stage, self.number.saturating_add(1));
        self.line = Line::Nothing;
        self.literals = Clause::new(self.alloc);
        self.partial = Vec::new(self.alloc);
    }

    fn keep_byte(&mut self, byte: u8) -> Result<(), NoMemory>
        ensures { OnOk result (self.new ≡ option_map (λ k. with_byte k byte) self.old) }
    {
        self.partial.push(byte)?;
        Ok(())
    }

    // Takes a byte into the clock's name.
    fn name_byte(&mut self, byte: u8) -> Result<(), NoMemory>
        ensures { OnOk result (self.new ≡ option_map (λ k. name_goes k byte) self.old) }
    {
        if is_name_byte(byte) {
            self.keep_byte(byte)
        } else {
            self.lose_line();
            Ok(())
        }
    }

    // Takes a byte into a long number.
    fn digit_byte(&mut self, byte: u8)
        ensures { self.new ≡ option_map (λ k. digits_go k byte) self.old }
    {
        if !is_digit(byte) {
            self.lose_line();
        }
    }

    // Keeps a literal, unless the log has no end.
    #[tactic(auto, using(crate::proofs::Stages::told_stage))]
    fn keep_literal(&mut self, literal: Lit) -> Result<(), NoMemory>
        ensures { OnOk result (self.new ≡ option_map (λ k. with_literal k literal) self.old) }
    {
        if !matches!(self.stage, Stage::Endless) {
            self.literals.push(literal)?;
        }
        self.partial.clear();
        Ok(())
    }

    // Takes the space behind a literal.
    fn end_literal(&mut self) -> Result<(), NoMemory>
        ensures { OnOk result (self.new ≡ option_map (λ k. literal_goes k (whole (literal_at k.partial))) self.old) }
    {
        match read_literal(self.partial.as_slice()) {
            Ok(literal) => self.keep_literal(literal),
            Err(LineFault::Wrong) => {
                self.lose_line();
                Ok(())
            }
            Err(LineFault::NoMemory) => Err(NoMemory),
        }
    }

    // Takes a byte into a literal.
    fn literal_byte(&mut self, byte: u8) -> Result<(), NoMemory>
        ensures { OnOk result (self.new ≡ option_map (λ k. word_goes k byte) self.old) }
    {
        if self.partial.len() >= LONG {
            self.lose_line();
            Ok(())
        } else {
            self.keep_byte(byte)
        }
    }

    // Takes a byte into a clause.
    fn clause_byte(&mut self, byte: u8) -> Result<(), NoMemory>
        ensures { OnOk result (self.new ≡ option_map (λ k. clause_goes k byte) self.old) }
    {
        if byte == b' ' {
            self.end_literal()
        } else {
            self.literal_byte(byte)
        }
    }

    // Takes a byte into a line that may be longer by it.
    fn next_byte(&mut self, byte: u8) -> Result<(), NoMemory>
        ensures { OnOk result (self.new ≡ option_map (λ k. byte_goes k byte) self.old) }
    {
        match self.line {
            Line::Bytes => self.keep_byte(byte),
            Line::Nothing => Ok(()),
            Line::Name => self.name_byte(byte),
            Line::Digits => {
                self.digit_byte(byte);
                Ok(())
            }
            Line::Clause => self.clause_byte(byte),
        }
    }

    #[tactic(auto, using(crate::proofs::Keeping::bytes_more))]
    fn next_bytes(&mut self, bytes: &[u8]) -> Result<(), NoMemory>
        ensures { OnOk result (self.new ≡ option_map (λ k. bytes_go k bytes.now) self.old) }
    {
        for byte in bytes {
            self.next_byte(*byte)?;
        }
        Ok(())
    }

    // Keeps of the clock's line the name.
    fn begin_name(&mut self) -> Result<(), NoMemory>
        ensures { OnOk result (self.new ≡ option_map (λ k. name_begun k (after (codes "clock ") k.partial)) self.old) }
    {
        let line = mem::replace(&mut self.partial, Vec::new(self.alloc));
        let mut cursor = Cursor::new(line.as_slice());
        if cursor.after(b"clock ").is_err() || !is_identifier(cursor.rest()) {
            self.lose_line();
            return Ok(());
        }
        self.partial.extend_from_slice(cursor.rest())?;
        self.literals = Clause::new(self.alloc);
        self.line = Line::Name;
        Ok(())
    }

    // Keeps of the first line of a log that its number is long.
    fn begin_digits(&mut self, section: Section)
        ensures { self.new ≡ option_map (λ k. digits_begun section k) self.old }
    {
        if is_long_log(section, self.partial.as_slice()) {
            self.line = Line::Digits;
            self.literals = Clause::new(self.alloc);
            self.partial.clear();
        } else {
            self.lose_line();
        }
    }

    // Keeps of a clause its literals.
    fn begin_clause(&mut self) -> Result<(), NoMemory>
        ensures { OnOk result (self.new ≡ option_map (λ k. clause_begun k (after (codes "clause ") k.partial)) self.old) }
    {
        let line = mem::replace(&mut self.partial, Vec::new(self.alloc));
        let mut cursor = Cursor::new(line.as_slice());
        if cursor.after(b"clause ").is_err() {
            self.lose_line();
            return Ok(());
        }
        self.literals = Clause::new(self.alloc);
        self.line = Line::Clause;
        self.next_bytes(cursor.rest())
    }

    // Keeps of a line that is long what it takes to read it on.
    #[tactic(auto, using(crate::proofs::Stages::told_stage))]
    fn begin_long(&mut self) -> Result<(), NoMemory>
        ensures { OnOk result (self.new ≡ option_map long_begun self.old) }
    {
        match self.stage {
            Stage::Head(HeadLine::Clock) => self.begin_name(),
            Stage::Begin(section) if is_log(section) => {
                self.begin_digits(section);
                Ok(())
            }
            Stage::Items(section, _) if is_log(section) => self.begin_clause(),
            Stage::Endless => self.begin_clause(),
            _ => {
                self.lose_line();
                Ok(())
            }
        }
    }

    // Makes room for one byte more.
    fn ready(&mut self) -> Result<(), NoMemory>
        ensures { OnOk result (self.new ≡ option_map readied self.old) }
    {
        match self.line {
            Line::Bytes if self.partial.len() >= LONG => self.begin_long(),
            _ => Ok(()),
        }
    }

    // Takes a byte into the line.
    fn line_byte(&mut self, byte: u8) -> Result<(), NoMemory>
        ensures { OnOk result (self.new ≡ option_map (λ k. line_goes k byte) self.old) }
    {
        self.ready()?;
        self.next_byte(byte)
    }

    fn byte(&mut self, byte: u8) -> Result<(), NoMemory>
        ensures { OnOk result (self.new ≡ option_map (λ k. kept_behind k byte) self.old) }
    {
        if byte == b'\n' {
            self.end_line()
        } else {
            self.line_byte(byte)
        }
    }

    #[tactic(auto, using(crate::proofs::Keeping::feeds_go))]
    fn bytes(&mut self, piece: &[u8]) -> Result<(), NoMemory>
        ensures fed { OnOk result (self.new ≡ option_map (λ k. kept_all k piece.now) self.old) }
        ensures some { OnOk result (IsSome self.old) }
        ensures refused { OnErr result (self.new ≡ None) }
    {
        if self.refused {
            return Err(NoMemory);
        }
        for byte in piece {
            if self.byte(*byte).is_err() {
                self.refused = true;
                return Err(NoMemory);
            }
        }
        Ok(())
    }

    /// Reads the next piece of the text. After a refusal each later call answers NoMemory.
    pub fn feed(&mut self, piece: &[u8]) -> Result<(), NoMemory>
        ensures fed { OnOk result ((text : List ℕ) → StandsFor self.old text → StandsFor self.new (text ++ piece.now)) }
        ensures some { OnOk result (IsSome self.old) }
        ensures refused { OnErr result (self.new ≡ None) }
    {
        self.bytes(piece)
    }

    // The fault of the text, if it isn't a certificate.
    fn fault(&self) -> Option<CertFault>
        ensures fault { IfSome result (λ fault. IfSome self.now (λ k. Answers (kept_finished k) (Err fault))) }
        ensures refused { self.now ≡ None → result ≡ Some CertFault.NoMemory }
        ensures none { IfNone result (IfSome self.now (λ k. (k.reading.stage ≡ Closed) × (kept_finished k ≡ Ok (cert_from k.reading.heading k.reading.gathered)))) }
    {
        if self.refused {
            return Some(CertFault::NoMemory);
        }
        if self.line != Line::Bytes || !self.ends || !self.partial.is_empty() {
            return Some(CertFault::Cut);
        }
        match self.stage {
            Stage::Head(_) | Stage::BadHead => Some(CertFault::BadHeader),
            Stage::Bad(number) => Some(CertFault::BadLine(number)),
            Stage::Begin(_) | Stage::Items(_, _) | Stage::Endless | Stage::End => Some(
                CertFault::BadLine(self.number),
            ),
            Stage::Closed => None,
        }
    }

    fn into_cert(self) -> Cert
        ensures { IfSome self (λ k. k.reading.stage ≡ Closed → result ≡ cert_from k.reading.heading k.reading.gathered) }
    {
        let CertReader {
            heading,
            gathered,
            ..
        } = self;
        cert_from(heading, gathered)
    }

    fn finish_kept(self) -> Result<Cert, CertFault>
        ensures cert { IfSome self (λ k. Answers (kept_finished k) result) }
        ensures refused { self ≡ None → result ≡ Err CertFault.NoMemory }
    {
        match self.fault() {
            Some(fault) => {
                drop(self);
                Err(fault)
            }
            None => Ok(self.into_cert()),
        }
    }

    /// The certificate that the text is, or its first fault.
    #[tactic(auto, using(crate::proofs::Keeping::answers))]
    pub fn finish(self) -> Result<Cert, CertFault>
        ensures cert { (text : List ℕ) → StandsFor self text → Answers (cert_of text) result }
        ensures refused { self ≡ None → result ≡ Err CertFault.NoMemory }
    {
        self.finish_kept()
    }
}

fn verdict_of(kind: CertKind, gathered: Gathered) -> Verdict
    ensures { result ≡ verdict_of kind gathered }
{
    let Gathered {
        seq,
        plain,
        word,
        equal,
        a,
        b,
        blocked,
        freed,
        first,
        second,
        journal,
        ..
    } = gathered;
    match kind {
        CertKind::Known => Verdict::SignedKnown { seq },
        CertKind::Relation => Verdict::SignedRelation {
            seq,
            equal,
            blocked,
            split: first,
            land: second,
        },
        CertKind::Refuted => Verdict::Refuted {
            seq: plain,
            a,
            b,
            word,
        },
        CertKind::Never => Verdict::Never {
            a,
            b,
            blocked,
            freed,
            escape: first,
        },
        CertKind::Alignable => Verdict::Alignable {
            seq: plain,
            a,
            b,
            word,
            blocked,
            freed,
            split: first,
            stuck: second,
        },
        CertKind::Unknown => Verdict::Unknown { equal, journal },
    }
}

fn cert_from(heading: Heading, gathered: Gathered) -> Cert
    ensures { result ≡ cert_from heading gathered }
{
    let Heading {
        version,
        form,
        clock,
        registers,
        inputs,
        outputs,
        kind,
    } = heading;
    Cert {
        version,
        form,
        clock,
        registers: u32::from(registers),
        inputs: u32::from(inputs),
        outputs: u32::from(outputs),
        verdict: verdict_of(kind, gathered),
    }
}

/// The certificate that a text is, or its first fault. The text of what is read is that text.
#[tactic(auto, using(crate::proofs::Found::found))]
pub fn read_cert(alloc: Global, text: &[u8]) -> Result<Cert, CertFault>
    ensures exact { Answers (cert_of text.now) result }
    ensures written { IfOk result (λ cert. text.now ≡ cert_text cert) }
{
    match CertReader::new(alloc) {
        Err(NoMemory) => Err(CertFault::NoMemory),
        Ok(reader) => read_whole(reader, text),
    }
}

fn read_whole(mut reader: CertReader, text: &[u8]) -> Result<Cert, CertFault>
    ensures { StandsFor reader [] → Answers (cert_of text.now) result }
{
    match reader.feed(text) {
        Ok(()) => reader.finish(),
        Err(NoMemory) => {
            drop(reader);
            Err(CertFault::NoMemory)
        }
    }
}
