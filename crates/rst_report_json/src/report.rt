// Writes reports as JSON.
ghost use Rattle.std.specs.Prelude.{◌≡◌, ℕ, List, OnOk, IfOk, Some, map, codes};
ghost use Rattle.serde_json.specs.Read.{read};
ghost use Rattle.rst_value.specs.Terns.{known};
ghost use Rattle.serde_json.specs.Data.{put};
ghost use Rattle.serde_json.specs.View.{view};
ghost use Rattle.rst_gate.specs.Patterns.{known_pattern};
ghost use Rattle.rst_text.specs.Lines.{line};
ghost use Rattle.rst_report.specs.Heads.{KeepsLimits};
ghost use Rattle.rst_report_json.specs.JsonReports.{verdict_word, with_method, with_design, with_pair, with_apart, with_parts, values_data, pattern_data, report_data, report_json};
ghost use Rattle.rst_report_json.specs.Objects.{members};

use crate::object::Object;
use crate::values::{pattern_value, state_value, word_value};
use rst_gate::{Bits, Pattern, Sequence};
use rst_outside::{Bytes, NoMemory};
use rst_report::{Head, width_sum};
use rst_text::Text;
use rst_verdict::Verdict;
use serde_json::Value;
use std::alloc::Global;

fn word_of(verdict: &Verdict) -> &'static str
    ensures { result.now ≡ verdict_word verdict.now }
{
    match verdict {
        Verdict::SignedKnown { .. } | Verdict::SignedRelation { .. } => "SIGNED",
        Verdict::Refuted { .. } => "REFUTED",
        Verdict::Never { .. } => "NONRESETTABLE",
        Verdict::Alignable { .. } => "ALIGNABLE",
        Verdict::Unknown { .. } => "UNKNOWN",
    }
}

// How a signed design was signed.
fn put_method(object: &mut Object, verdict: &Verdict) -> Result<(), NoMemory>
    ensures { OnOk result (members object.new ≡ with_method verdict.now (members object.old)) }
{
    match verdict {
        Verdict::SignedKnown { .. } => object.put_text("method", "known"),
        Verdict::SignedRelation { .. } => object.put_text("method", "relation"),
        Verdict::Refuted { .. }
        | Verdict::Never { .. }
        | Verdict::Alignable { .. }
        | Verdict::Unknown { .. } => Ok(()),
    }
}

// The design's name, and the numbers of its input, output and register bits.
fn put_design(object: &mut Object, head: &Head) -> Result<(), NoMemory>
    requires { KeepsLimits head.now }
    ensures { OnOk result (members object.new ≡ with_design head.now (members object.old)) }
{
    object.put_name("design", head.top.as_slice())?;
    object.put_number("inputs", width_sum(head.inputs.as_slice()))?;
    object.put_number("outputs", width_sum(head.outputs.as_slice()))?;
    object.put_number("registers", width_sum(head.registers.as_slice()))
}

// The pattern of inputs that signs.
fn put_signing(
    alloc: Global,
    object: &mut Object,
    head: &Head,
    seq: &Pattern,
) -> Result<(), NoMemory>
    ensures { OnOk result (members object.new
        ≡ put (codes "sequence") (pattern_data head.now.inputs seq.now) (members object.old)) }
{
    let value = pattern_value(alloc, head.inputs.as_slice(), seq.as_slice())?;
    object.put("sequence", value)
}

fn put_word(
    alloc: Global,
    object: &mut Object,
    title: &str,
    head: &Head,
    word: &Sequence,
) -> Result<(), NoMemory>
    ensures { OnOk result (members object.new
        ≡ put title.now (pattern_data head.now.inputs (known_pattern word.now)) (members object.old)) }
{
    let value = word_value(alloc, head.inputs.as_slice(), word)?;
    object.put(title, value)
}

fn put_state(
    alloc: Global,
    object: &mut Object,
    title: &str,
    head: &Head,
    state: &Bits,
) -> Result<(), NoMemory>
    ensures { OnOk result (members object.new
        ≡ put title.now (values_data head.now.registers (map known state.now)) (members object.old)) }
{
    let value = state_value(alloc, head.registers.as_slice(), state)?;
    object.put(title, value)
}

// Two power-up states.
fn put_pair(
    alloc: Global,
    object: &mut Object,
    head: &Head,
    a: &Bits,
    b: &Bits,
) -> Result<(), NoMemory>
    ensures { OnOk result (members object.new ≡ with_pair head.now a.now b.now (members object.old)) }
{
    put_state(alloc, object, "a", head, a)?;
    put_state(alloc, object, "b", head, b)
}

// A sequence, two power-up states, and the word that tells them apart or aligns them behind it.
fn put_apart(
    alloc: Global,
    object: &mut Object,
    head: &Head,
    seq: &Sequence,
    a: &Bits,
    b: &Bits,
    word: &Sequence,
) -> Result<(), NoMemory>
    ensures { OnOk result (members object.new
        ≡ with_apart head.now seq.now a.now b.now word.now (members object.old)) }
{
    put_word(alloc, object, "sequence", head, seq)?;
    put_pair(alloc, object, head, a, b)?;
    put_word(alloc, object, "word", head, word)
}

// What the verdict shows of its evidence.
fn put_parts(
    alloc: Global,
    object: &mut Object,
    head: &Head,
    verdict: &Verdict,
) -> Result<(), NoMemory>
    ensures { OnOk result (members object.new ≡ with_parts head.now verdict.now (members object.old)) }
{
    match verdict {
        Verdict::SignedKnown { seq } | Verdict::SignedRelation { seq, .. } => {
            put_signing(alloc, object, head, seq)
        }
        Verdict::Refuted { seq, a, b, word }
        | Verdict::Alignable {
            seq,
            a,
            b,
            word,
            ..
        } => { put_apart(alloc, object, head, seq, a, b, word) }
        Verdict::Never { a, b, .. } => put_pair(alloc, object, head, a, b),
        Verdict::Unknown { .. } => object.put_number("budget", u64::from(head.budget)),
    }
}

// The report as one object.
fn report_value(alloc: Global, head: &Head, verdict: &Verdict) -> Result<Value, NoMemory>
    requires { KeepsLimits head.now }
    ensures { IfOk result (λ value. view value ≡ report_data head.now verdict.now) }
{
    let mut object = Object::new(alloc);
    put_design(&mut object, head)?;
    object.put_text("verdict", word_of(verdict))?;
    put_method(&mut object, verdict)?;
    put_parts(alloc, &mut object, head, verdict)?;
    Ok(object.finish())
}

// A text of one line.
fn one_line(alloc: Global, bytes: &[u8]) -> Result<Bytes, NoMemory>
    ensures { IfOk result (λ text. text ≡ line bytes.now) }
{
    let mut text = Text::new(alloc);
    text.put_line(bytes)?;
    text.finish()
}

/// The report of a verdict on the design as one line of JSON without white space: an object with the
/// design's name as `design`, the numbers of its bits as `inputs`, `outputs` and `registers`, the kind
/// of the verdict as `verdict`, and where it is signed the `method`, `known` or `relation`.
///
/// Of its evidence the verdict shows, where it has them, the `sequence` of inputs, two power-up states
/// `a` and `b`, and the `word` that tells the two apart or aligns them; or the `budget` that was spent.
/// A sequence is an array with an object for each cycle. Inputs and states are objects that name each
/// port or register and give its bits as a string, the most significant bit to the left, and `-` for a
/// free bit. The members of each object stand in the order of their names' bytes. Inputs have a place
/// for each input bit, and states one for each register bit. The line is the object's text exactly
/// (`exact`), and reads as that object (`reads_back`). It is refused for want of memory alone.
pub fn report_json(alloc: Global, head: &Head, verdict: &Verdict) -> Result<Bytes, NoMemory>
    requires { KeepsLimits head.now }
    ensures exact { IfOk result (λ bytes. bytes ≡ report_json head.now verdict.now) }
    ensures reads_back { IfOk result (λ bytes. (text : List ℕ) × (bytes ≡ line text)
        × (read text ≡ Some (report_data head.now verdict.now))) }
{
    let value = report_value(alloc, head, verdict)?;
    let written = value.to_string(alloc);
    drop(value);
    one_line(alloc, written?.as_bytes())
}
