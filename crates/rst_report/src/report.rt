// Writes reports.
ghost use Rattle.std.specs.Prelude.{◌≡◌, ◌++◌, OnOk, IfOk};
ghost use Rattle.rst_gate.specs.Patterns.{known_pattern};
ghost use Rattle.rst_text.specs.Lines.{line};
ghost use Rattle.rst_report.specs.Heads.{KeepsLimits};
ghost use Rattle.rst_report.specs.Reports.{kind_text, counts_text, design_text, pattern_lines, state_line, pair_lines, apart_lines, part_lines, report_text};

use crate::head::{Head, width_sum};
use crate::rows::{put_rows, put_values};
use rst_gate::{Bits, Pattern, Sequence, known_cube, known_pattern};
use rst_outside::{Bytes, NoMemory, PortBits};
use rst_text::Text;
use rst_verdict::Verdict;
use std::alloc::Global;

// Free bits of a pattern are marked so.
const FREE: u8 = b'-';

fn kind_of(verdict: &Verdict) -> &'static [u8]
    ensures { result.now ≡ kind_text verdict.now }
{
    match verdict {
        Verdict::SignedKnown { .. } => b"SIGNED known",
        Verdict::SignedRelation { .. } => b"SIGNED relation",
        Verdict::Refuted { .. } => b"REFUTED",
        Verdict::Never { .. } => b"NONRESETTABLE",
        Verdict::Alignable { .. } => b"ALIGNABLE",
        Verdict::Unknown { .. } => b"UNKNOWN",
    }
}

// The numbers of register, input and output bits.
fn put_counts(text: &mut Text, head: &Head) -> Result<(), NoMemory>
    requires { KeepsLimits head.now }
    ensures { OnOk result (text.new ≡ text.old ++ counts_text head.now) }
{
    text.put_counted(b" registers", width_sum(head.registers.as_slice()))?;
    text.put_counted(b" inputs", width_sum(head.inputs.as_slice()))?;
    text.put_counted(b" outputs", width_sum(head.outputs.as_slice()))?;
    Ok(())
}

fn put_design(text: &mut Text, head: &Head) -> Result<(), NoMemory>
    requires { KeepsLimits head.now }
    ensures { OnOk result (text.new ≡ text.old ++ line (design_text head.now)) }
{
    text.put(b"design ")?;
    text.put(head.top.as_slice())?;
    put_counts(text, head)?;
    text.end_line()?;
    Ok(())
}

// The length of the pattern, and a row a cycle.
fn put_pattern(
    text: &mut Text,
    title: &[u8],
    ports: &[PortBits],
    pattern: &Pattern,
) -> Result<(), NoMemory>
    ensures { OnOk result (text.new ≡ text.old ++ pattern_lines title.now ports.now pattern.now) }
{
    text.put_count_line(title, pattern.len() as u64)?;
    put_rows(text, FREE, ports, pattern.as_slice())?;
    Ok(())
}

// A word as the pattern without free bits.
fn put_word(
    alloc: Global,
    text: &mut Text,
    title: &[u8],
    ports: &[PortBits],
    word: &Sequence,
) -> Result<(), NoMemory>
    ensures { OnOk result (text.new
        ≡ text.old ++ pattern_lines title.now ports.now (known_pattern word.now)) }
{
    let pattern = known_pattern(alloc, word.as_slice())?;
    put_pattern(text, title, ports, &pattern)
}

fn put_state(
    alloc: Global,
    text: &mut Text,
    title: &[u8],
    registers: &[PortBits],
    state: &Bits,
) -> Result<(), NoMemory>
    ensures { OnOk result (text.new ≡ text.old ++ state_line title.now registers.now state.now) }
{
    let places = known_cube(alloc, state.as_slice())?;
    text.put(title)?;
    put_values(text, FREE, registers, places.as_slice())?;
    text.end_line()
}

// Two power-up states.
fn put_pair(alloc: Global, text: &mut Text, head: &Head, a: &Bits, b: &Bits) -> Result<(), NoMemory>
    ensures { OnOk result (text.new ≡ text.old ++ pair_lines head.now a.now b.now) }
{
    put_state(alloc, text, b"a", head.registers.as_slice(), a)?;
    put_state(alloc, text, b"b", head.registers.as_slice(), b)?;
    Ok(())
}

// A sequence, two power-up states, and the word that tells them apart or aligns them behind it.
fn put_apart(
    alloc: Global,
    text: &mut Text,
    head: &Head,
    seq: &Sequence,
    a: &Bits,
    b: &Bits,
    word: &Sequence,
) -> Result<(), NoMemory>
    ensures { OnOk result (text.new
        ≡ text.old ++ apart_lines head.now seq.now a.now b.now word.now) }
{
    put_word(alloc, text, b"sequence", head.inputs.as_slice(), seq)?;
    put_pair(alloc, text, head, a, b)?;
    put_word(alloc, text, b"word", head.inputs.as_slice(), word)?;
    Ok(())
}

// What the verdict shows of its evidence.
fn put_parts(alloc: Global, text: &mut Text, head: &Head, verdict: &Verdict) -> Result<(), NoMemory>
    ensures { OnOk result (text.new ≡ text.old ++ part_lines head.now verdict.now) }
{
    match verdict {
        Verdict::SignedKnown { seq } | Verdict::SignedRelation { seq, .. } => {
            put_pattern(text, b"sequence", head.inputs.as_slice(), seq)
        }
        Verdict::Refuted { seq, a, b, word }
        | Verdict::Alignable {
            seq,
            a,
            b,
            word,
            ..
        } => { put_apart(alloc, text, head, seq, a, b, word) }
        Verdict::Never { a, b, .. } => put_pair(alloc, text, head, a, b),
        Verdict::Unknown { .. } => text.put_count_line(b"budget", u64::from(head.budget)),
    }
}

/// The report of a verdict on the design: a line with its kind, a line with the design's name and its
/// numbers of register, input and output bits, and what the verdict shows of its evidence.
///
/// That is, where the verdict has them and in this order, the sequence of inputs, a line a cycle, two
/// power-up states, a line each, and the word that tells the two apart or aligns them, a line a cycle;
/// or the budget that was spent. Cycles count from 0 in each list. Values are ` NAME=BITS` for each
/// port or register in the order of the design, the most significant bit to the left, and `-` for a
/// free bit. Inputs have a place for each input bit, and states one for each register bit. It is refused
/// for want of memory alone.
pub fn report_text(alloc: Global, head: &Head, verdict: &Verdict) -> Result<Bytes, NoMemory>
    requires { KeepsLimits head.now }
    ensures { IfOk result (λ bytes. bytes ≡ report_text head.now verdict.now) }
{
    let mut text = Text::new(alloc);
    text.put_line(kind_of(verdict))?;
    put_design(&mut text, head)?;
    put_parts(alloc, &mut text, head, verdict)?;
    text.finish()
}
