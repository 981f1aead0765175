//! The program: `run` on the words of the command line, the real files and the standard output.
//!
//! It ends with the status's number; where there is no memory for the words themselves, with 6.
#![tactic(auto)]

use rst_outside::{FileDesk, StreamSink};
use rst_sign::{Status, run};
use std::alloc::Global;
use std::env;
use std::io::{self, ErrorKind};
use std::process::ExitCode;
use std::rt::Env;

// The words behind the program's name: none where one of them isn't text, which is then answered
// as every faulty command line is.
fn words_given<R: Env + AllocGlobal>(rt: &R) -> io::Result<Vec<String>> {
    let mut words = Vec::new(rt.alloc());
    match env::args(rt) {
        Ok(given) => {
            for word in given.skip(1) {
                words.push(word)?;
            }
            Ok(words)
        }
        Err(error) => match error.kind() {
            ErrorKind::OutOfMemory => Err(error),
            _ => Ok(words),
        },
    }
}

fn main(rt: HostRuntime) -> ExitCode {
    let Ok(words) = words_given(&rt) else {
        return ExitCode::from(Status::NoMemory.number());
    };
    let mut desk = FileDesk::new(&rt);
    let mut sink = StreamSink::new(&rt);
    let outcome = run(rt.alloc(), &words, &mut desk, &mut sink);
    ExitCode::from(outcome.status.number())
}
