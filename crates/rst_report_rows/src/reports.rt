// Reports of every verdict, as text and as JSON.
ghost use Rattle.std.specs.Prelude.{IfOk};
ghost use Rattle.rst_report.specs.Heads.{KeepsLimits};

use crate::values::{alignable, known, never, refuted, related, toggle, unknown, unsorted, wires};
use rst_outside::{Bytes, NoMemory};
use rst_report::{Head, report_text};
use rst_report_json::report_json;
use rst_verdict::Verdict;
use std::alloc::Global;
use std::test::Fail;

fn is_text(answer: Result<Bytes, NoMemory>, text: &[u8]) -> bool {
    match answer {
        Ok(bytes) => bytes.as_slice() == text,
        Err(NoMemory) => false,
    }
}

// Whether the verdict on the design is shown as this text and this JSON.
fn shows(
    alloc: Global,
    head: Result<Head, NoMemory>,
    verdict: Result<Verdict, NoMemory>,
    text: &[u8],
    json: &[u8],
) -> Result<bool, NoMemory>
    requires { IfOk head KeepsLimits }
{
    let head = Box::new(alloc, head?)?;
    let verdict = Box::new(alloc, verdict?)?;
    let plain = is_text(report_text(alloc, &head, &verdict), text);
    let value = is_text(report_json(alloc, &head, &verdict), json);
    Ok(plain && value)
}

// A reset in one cycle by one input.
#[test]
fn toggle_signed(rt: HostRuntime) -> Result<(), Fail> {
    let alloc = rt.alloc();
    let shown = shows(
        alloc,
        toggle(alloc),
        known(alloc, &[b"1"]),
        b"SIGNED known\ndesign t registers 1 inputs 1 outputs 1\nsequence 1\ncycle 0 rst=1\n",
        b"{\"design\":\"t\",\"inputs\":1,\"method\":\"known\",\"outputs\":1,\"registers\":1,\"sequence\":[{\"rst\":\"1\"}],\"verdict\":\"SIGNED\"}\n",
    )?;
    assert!(rt; shown);
    Ok(())
}

// Free bits, in two cycles of a vector and a bit. The text has the order of the ports, JSON that of names.
#[test]
fn relation_with_free_bits(rt: HostRuntime) -> Result<(), Fail> {
    let alloc = rt.alloc();
    let shown = shows(
        alloc,
        unsorted(alloc),
        related(alloc, &[b"1-0-", b"0111"]),
        b"SIGNED relation\ndesign top registers 3 inputs 4 outputs 64\nsequence 2\ncycle 0 rst=1 d=-0-\ncycle 1 rst=0 d=111\n",
        b"{\"design\":\"top\",\"inputs\":4,\"method\":\"relation\",\"outputs\":64,\"registers\":3,\"sequence\":[{\"d\":\"-0-\",\"rst\":\"1\"},{\"d\":\"111\",\"rst\":\"0\"}],\"verdict\":\"SIGNED\"}\n",
    )?;
    assert!(rt; shown);
    Ok(())
}

// Two states behind an empty sequence, and a word.
#[test]
fn refuted_without_a_sequence(rt: HostRuntime) -> Result<(), Fail> {
    let alloc = rt.alloc();
    let shown = shows(
        alloc,
        unsorted(alloc),
        refuted(alloc, &[], b"011", b"010", &[b"0000", b"1010"]),
        b"REFUTED\ndesign top registers 3 inputs 4 outputs 64\nsequence 0\na u0.q=01 Q_$=1\nb u0.q=01 Q_$=0\nword 2\ncycle 0 rst=0 d=000\ncycle 1 rst=1 d=010\n",
        b"{\"a\":{\"Q_$\":\"1\",\"u0.q\":\"01\"},\"b\":{\"Q_$\":\"0\",\"u0.q\":\"01\"},\"design\":\"top\",\"inputs\":4,\"outputs\":64,\"registers\":3,\"sequence\":[],\"verdict\":\"REFUTED\",\"word\":[{\"d\":\"000\",\"rst\":\"0\"},{\"d\":\"010\",\"rst\":\"1\"}]}\n",
    )?;
    assert!(rt; shown);
    Ok(())
}

// Two states that no word aligns.
#[test]
fn never_aligned(rt: HostRuntime) -> Result<(), Fail> {
    let alloc = rt.alloc();
    let shown = shows(
        alloc,
        toggle(alloc),
        never(alloc, b"0", b"1"),
        b"NONRESETTABLE\ndesign t registers 1 inputs 1 outputs 1\na q=0\nb q=1\n",
        b"{\"a\":{\"q\":\"0\"},\"b\":{\"q\":\"1\"},\"design\":\"t\",\"inputs\":1,\"outputs\":1,\"registers\":1,\"verdict\":\"NONRESETTABLE\"}\n",
    )?;
    assert!(rt; shown);
    Ok(())
}

// A sequence that is too short, and the word that aligns two states behind it.
#[test]
fn alignable_behind_a_sequence(rt: HostRuntime) -> Result<(), Fail> {
    let alloc = rt.alloc();
    let shown = shows(
        alloc,
        toggle(alloc),
        alignable(alloc, &[b"0"], b"1", b"0", &[b"1"]),
        b"ALIGNABLE\ndesign t registers 1 inputs 1 outputs 1\nsequence 1\ncycle 0 rst=0\na q=1\nb q=0\nword 1\ncycle 0 rst=1\n",
        b"{\"a\":{\"q\":\"1\"},\"b\":{\"q\":\"0\"},\"design\":\"t\",\"inputs\":1,\"outputs\":1,\"registers\":1,\"sequence\":[{\"rst\":\"0\"}],\"verdict\":\"ALIGNABLE\",\"word\":[{\"rst\":\"1\"}]}\n",
    )?;
    assert!(rt; shown);
    Ok(())
}

// A spent budget.
#[test]
fn unknown_within_the_budget(rt: HostRuntime) -> Result<(), Fail> {
    let alloc = rt.alloc();
    let shown = shows(
        alloc,
        unsorted(alloc),
        Ok(unknown(alloc)),
        b"UNKNOWN\ndesign top registers 3 inputs 4 outputs 64\nbudget 7\n",
        b"{\"budget\":7,\"design\":\"top\",\"inputs\":4,\"outputs\":64,\"registers\":3,\"verdict\":\"UNKNOWN\"}\n",
    )?;
    assert!(rt; shown);
    Ok(())
}

// A design without registers, signed by no cycle.
#[test]
fn no_registers_and_no_cycles(rt: HostRuntime) -> Result<(), Fail> {
    let alloc = rt.alloc();
    let shown = shows(
        alloc,
        wires(alloc),
        known(alloc, &[]),
        b"SIGNED known\ndesign k registers 0 inputs 1 outputs 1\nsequence 0\n",
        b"{\"design\":\"k\",\"inputs\":1,\"method\":\"known\",\"outputs\":1,\"registers\":0,\"sequence\":[],\"verdict\":\"SIGNED\"}\n",
    )?;
    assert!(rt; shown);
    Ok(())
}

// States of no register.
#[test]
fn states_of_no_register(rt: HostRuntime) -> Result<(), Fail> {
    let alloc = rt.alloc();
    let shown = shows(
        alloc,
        wires(alloc),
        never(alloc, b"", b""),
        b"NONRESETTABLE\ndesign k registers 0 inputs 1 outputs 1\na\nb\n",
        b"{\"a\":{},\"b\":{},\"design\":\"k\",\"inputs\":1,\"outputs\":1,\"registers\":0,\"verdict\":\"NONRESETTABLE\"}\n",
    )?;
    assert!(rt; shown);
    Ok(())
}
