// The sections of a certificate's text.
ghost use Rattle.std.specs.Prelude.{◌≡◌, [], ◌∷◌, ◌++◌, codes, OnOk, IfOk};
ghost use Rattle.rst_certificate.specs.Words.{counted};
ghost use Rattle.rst_certificate.specs.CertText.{clock_line, kind_line, opening_lines, size_lines, header_lines, pattern_lines, sequence_lines, word_lines, blocked_lines, freed_lines, log_lines, journal_lines, pair_lines, equal_lines, part_lines, cert_lines};
ghost use Rattle.rst_certificate.specs.Sections.{section_lines, lines_of, AddsLines};

use crate::section::Section;
use rst_clause::Log;
use rst_gate::{Bits, Pattern, Sequence};
use rst_outside::{Name, NoMemory};
use rst_pair::Journal;
use rst_verdict::{Cert, Hops, Verdict};
use std::alloc::Global;

fn add<'a>(plan: &mut Vec<Section<'a>>, section: Section<'a>) -> Result<(), NoMemory>
    ensures { OnOk result (AddsLines plan.old.items plan.new.items (section_lines section.entry)) }
{
    plan.push(section)?;
    Ok(())
}

fn add_number<'a>(plan: &mut Vec<Section<'a>>, word: &'a [u8], number: u32) -> Result<(), NoMemory>
    ensures { OnOk result (AddsLines plan.old.items plan.new.items (counted word.now number ∷ [])) }
{
    add(plan, Section::Numbered(word, u64::from(number)))?;
    Ok(())
}

fn put_clock<'a>(plan: &mut Vec<Section<'a>>, clock: &'a Option<Name>) -> Result<(), NoMemory>
    ensures { OnOk result (AddsLines plan.old.items plan.new.items (clock_line clock.now ∷ [])) }
{
    match clock {
        None => add(plan, Section::Line(b"noclock"))?,
        Some(name) => add(plan, Section::Named(b"clock ", name.as_slice()))?,
    }
    Ok(())
}

fn kind_word(verdict: &Verdict) -> &'static [u8]
    ensures { result.now ≡ kind_line verdict.now }
{
    match verdict {
        Verdict::SignedKnown { .. } => b"known",
        Verdict::SignedRelation { .. } => b"relation",
        Verdict::Refuted { .. } => b"refuted",
        Verdict::Never { .. } => b"never",
        Verdict::Alignable { .. } => b"alignable",
        Verdict::Unknown { .. } => b"unknown",
    }
}

fn put_opening<'a>(plan: &mut Vec<Section<'a>>, cert: &'a Cert) -> Result<(), NoMemory>
    ensures { OnOk result (AddsLines plan.old.items plan.new.items (opening_lines cert.now)) }
{
    add_number(plan, b"reset-certificate", cert.version)?;
    add_number(plan, b"form", cert.form)?;
    put_clock(plan, &cert.clock)?;
    Ok(())
}

// The numbers of the design's bits.
fn put_sizes<'a>(plan: &mut Vec<Section<'a>>, cert: &'a Cert) -> Result<(), NoMemory>
    ensures { OnOk result (AddsLines plan.old.items plan.new.items (size_lines cert.now)) }
{
    add_number(plan, b"registers", cert.registers)?;
    add_number(plan, b"inputs", cert.inputs)?;
    add_number(plan, b"outputs", cert.outputs)?;
    Ok(())
}

fn put_header<'a>(plan: &mut Vec<Section<'a>>, cert: &'a Cert) -> Result<(), NoMemory>
    ensures { OnOk result (AddsLines plan.old.items plan.new.items (header_lines cert.now)) }
{
    put_opening(plan, cert)?;
    put_sizes(plan, cert)?;
    add(plan, Section::Line(kind_word(&cert.verdict)))?;
    Ok(())
}

fn put_pattern<'a>(plan: &mut Vec<Section<'a>>, seq: &'a Pattern) -> Result<(), NoMemory>
    ensures { OnOk result (AddsLines plan.old.items plan.new.items (pattern_lines seq.now)) }
{
    add(plan, Section::Numbered(b"sequence", seq.len() as u64))?;
    add(plan, Section::FreeSteps(seq.as_slice()))?;
    Ok(())
}

fn put_sequence<'a>(plan: &mut Vec<Section<'a>>, seq: &'a Sequence) -> Result<(), NoMemory>
    ensures { OnOk result (AddsLines plan.old.items plan.new.items (sequence_lines seq.now)) }
{
    add(plan, Section::Numbered(b"sequence", seq.len() as u64))?;
    add(plan, Section::Steps(seq.as_slice()))?;
    Ok(())
}

fn put_word<'a>(plan: &mut Vec<Section<'a>>, word: &'a Sequence) -> Result<(), NoMemory>
    ensures { OnOk result (AddsLines plan.old.items plan.new.items (word_lines word.now)) }
{
    add(plan, Section::Numbered(b"word", word.len() as u64))?;
    add(plan, Section::Steps(word.as_slice()))?;
    Ok(())
}

fn put_blocked<'a>(plan: &mut Vec<Section<'a>>, hops: &'a Hops) -> Result<(), NoMemory>
    ensures { OnOk result (AddsLines plan.old.items plan.new.items (blocked_lines hops.now)) }
{
    add(plan, Section::Numbered(b"blocked", hops.len() as u64))?;
    add(plan, Section::BlockedHops(hops.as_slice()))?;
    Ok(())
}

fn put_freed<'a>(plan: &mut Vec<Section<'a>>, hops: &'a Hops) -> Result<(), NoMemory>
    ensures { OnOk result (AddsLines plan.old.items plan.new.items (freed_lines hops.now)) }
{
    add(plan, Section::Numbered(b"freed", hops.len() as u64))?;
    add(plan, Section::FreedHops(hops.as_slice()))?;
    Ok(())
}

fn put_log<'a>(
    plan: &mut Vec<Section<'a>>,
    name: &'a [u8],
    word: &'a [u8],
    log: &'a Log,
) -> Result<(), NoMemory>
    requires { word.now ≡ codes "log " ++ name.now }
    ensures { OnOk result (AddsLines plan.old.items plan.new.items (log_lines name.now log.now)) }
{
    add(plan, Section::Numbered(word, log.len() as u64))?;
    add(plan, Section::Clauses(log.as_slice()))?;
    Ok(())
}

fn put_journal<'a>(plan: &mut Vec<Section<'a>>, journal: &'a Journal) -> Result<(), NoMemory>
    ensures { OnOk result (AddsLines plan.old.items plan.new.items (journal_lines journal.now)) }
{
    add(plan, Section::Numbered(b"journal", journal.len() as u64))?;
    add(plan, Section::Entries(journal.as_slice()))?;
    Ok(())
}

// Two states.
fn put_pair<'a>(plan: &mut Vec<Section<'a>>, a: &'a Bits, b: &'a Bits) -> Result<(), NoMemory>
    ensures { OnOk result (AddsLines plan.old.items plan.new.items (pair_lines a.now b.now)) }
{
    add(plan, Section::State(b"a", a.as_slice()))?;
    add(plan, Section::State(b"b", b.as_slice()))?;
    Ok(())
}

fn put_equal<'a>(plan: &mut Vec<Section<'a>>, equal: &'a Bits) -> Result<(), NoMemory>
    ensures { OnOk result (AddsLines plan.old.items plan.new.items (equal_lines equal.now)) }
{
    add(plan, Section::State(b"equal", equal.as_slice()))?;
    Ok(())
}

// The evidence of a verdict.
fn put_parts<'a>(plan: &mut Vec<Section<'a>>, verdict: &'a Verdict) -> Result<(), NoMemory>
    ensures { OnOk result (AddsLines plan.old.items plan.new.items (part_lines verdict.now)) }
{
    match verdict {
        Verdict::SignedKnown { seq } => {
            put_pattern(plan, seq)?;
            Ok(())
        }
        Verdict::SignedRelation {
            seq,
            equal,
            blocked,
            split,
            land,
        } => {
            put_pattern(plan, seq)?;
            put_equal(plan, equal)?;
            put_blocked(plan, blocked)?;
            put_log(plan, b"split", b"log split", split)?;
            put_log(plan, b"land", b"log land", land)?;
            Ok(())
        }
        Verdict::Refuted { seq, a, b, word } => {
            put_sequence(plan, seq)?;
            put_pair(plan, a, b)?;
            put_word(plan, word)?;
            Ok(())
        }
        Verdict::Never {
            a,
            b,
            blocked,
            freed,
            escape,
        } => {
            put_pair(plan, a, b)?;
            put_blocked(plan, blocked)?;
            put_freed(plan, freed)?;
            put_log(plan, b"escape", b"log escape", escape)?;
            Ok(())
        }
        Verdict::Alignable {
            seq,
            a,
            b,
            word,
            blocked,
            freed,
            split,
            stuck,
        } => {
            put_sequence(plan, seq)?;
            put_pair(plan, a, b)?;
            put_word(plan, word)?;
            put_blocked(plan, blocked)?;
            put_freed(plan, freed)?;
            put_log(plan, b"split", b"log split", split)?;
            put_log(plan, b"stuck", b"log stuck", stuck)?;
            Ok(())
        }
        Verdict::Unknown { equal, journal } => {
            put_equal(plan, equal)?;
            put_journal(plan, journal)?;
            Ok(())
        }
    }
}

// The sections of the certificate's text.
pub(crate) fn plan<'a>(alloc: Global, cert: &'a Cert) -> Result<Vec<Section<'a>>, NoMemory>
    ensures { IfOk result (λ sections. lines_of sections.items ≡ cert_lines cert.now) }
{
    let mut plan = Vec::new(alloc);
    put_header(&mut plan, cert)?;
    put_parts(&mut plan, &cert.verdict)?;
    add(&mut plan, Section::Line(b"end"))?;
    Ok(plan)
}
