// Rows of faulty command lines, files and outputs.
use crate::bench::{Failing, Files, SURE, run_line, run_texts};
use crate::sources::{RESET, TOGGLE, one};
use rst_outside::NoMemory;
use std::alloc::Global;
use std::test::Fail;

const USAGE: &str =
    "2\nusage: resetsign check TOP SCRIPT CERT FILE.. | known TOP SCRIPT FILE.. | demo N\n";

const NO_COMMANDS: [&str; 15] = [
    "",
    "chek t s c t.v",
    "check",
    "check t s",
    "check t s c",
    "check t s s t.v",
    "check t s t.v t.v",
    "check t s c u.v c",
    "known t s",
    "demo",
    "demo 0",
    "demo 07",
    "demo 61",
    "demo 1 2",
    "Check t s c t.v",
];

#[test]
fn answers_other_words_with_the_usage(rt: HostRuntime) -> Result<(), Fail> {
    for line in NO_COMMANDS {
        let left = run_texts(rt.alloc(), line, one(RESET, TOGGLE))?;
        assert_eq!(rt; left.as_str(), USAGE, "{line}");
    }
    Ok(())
}

/// A line, the calls of the desk and of the sink that fail, and what is left.
type Fault = (&'static str, &'static [u32], &'static [u32], &'static str);

const REPORT: &str =
    "SIGNED known\ndesign t registers 1 inputs 1 outputs 1\nsequence 1\ncycle 0 rst=1\n";

const FAULTS: [Fault; 9] = [
    (
        "check t s c gone.v",
        &[],
        &[],
        "3 unread 4\nread fault gone.v\n",
    ),
    (
        "known t s t.v gone.v",
        &[],
        &[],
        "3 unread 4\nread fault gone.v\n",
    ),
    (
        "check t gone c t.v",
        &[],
        &[],
        "3 unread 2\nread fault gone\n",
    ),
    ("check t s c t.v", &[0], &[], "3 unread 2\nread fault s\n"),
    ("check t s c t.v", &[1], &[], "3 unread 4\nread fault t.v\n"),
    // The first piece of the certificate is not saved, and nothing is put.
    ("check t s c t.v", &[2], &[], "4 decided\n"),
    // The certificate is saved, and the text is not put.
    (
        "check t s c t.v",
        &[],
        &[0],
        "4 decided\n\
        reset-certificate 1\nform 2\nclock clk\nregisters 1\ninputs 1\noutputs 1\nknown\nsequence 1\nstep =1\nend\n",
    ),
    // A refusal that is not put is kept.
    ("check u s c t.v", &[], &[0], "4\n"),
    // Calls that are not made.
    (
        "demo 1",
        &[0],
        &[1],
        "0 decided\ndemo 1\nSIGNED known\ndesign demo registers 9 inputs 10 outputs 9\nsequence 1\ncycle 0 rst=1 dv=0 d=00000000\n",
    ),
];

#[test]
fn leaves_what_is_due_at_each_fault(rt: HostRuntime) -> Result<(), Fail> {
    for (line, desk, sink, due) in FAULTS {
        let failing = Failing { desk, sink };
        let left = run_line(rt.alloc(), line, one(RESET, TOGGLE).files(), failing)?;
        assert_eq!(rt; left.as_str(), due, "{line}");
    }
    Ok(())
}

// A text of blanks.
fn blanks(alloc: Global, count: usize) -> Result<Vec<u8>, NoMemory> {
    let mut text = Vec::new(alloc);
    for _ in 0..count {
        text.push(b' ')?;
    }
    Ok(text)
}

// What `check` leaves where one of its files has this many blanks.
fn run_blanks(alloc: Global, count: usize, in_script: bool) -> Result<String, Fail> {
    let text = blanks(alloc, count)?;
    let sure = one(RESET, TOGGLE).files();
    let files = if in_script {
        Files {
            script: text.as_slice(),
            ..sure
        }
    } else {
        Files {
            source: text.as_slice(),
            ..sure
        }
    };
    run_line(alloc, "check t s c t.v", files, SURE)
}

const LONG: [(usize, bool, &str); 4] = [
    (1_048_576, true, "5 file 2\nrejected BadLine s 2\n"),
    (1_048_577, true, "5 file 2\nrejected TooLong s\n"),
    (1_048_576, false, "5\nrejected NoTop\n"),
    (1_048_577, false, "5 file 4\nrejected TooLong t.v\n"),
];

#[test]
fn keeps_the_limit_of_a_file(rt: HostRuntime) -> Result<(), Fail> {
    for (count, in_script, due) in LONG {
        let left = run_blanks(rt.alloc(), count, in_script)?;
        assert_eq!(rt; left.as_str(), due);
    }
    Ok(())
}
