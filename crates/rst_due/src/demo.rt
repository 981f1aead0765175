// What is due in `demo N`.
ghost use Rattle.std.specs.Prelude.{◌≡◌, ◌≢◌, ◌≤◌, [], ◌∷◌, Ok, Err, None, IfOk, length, map, string_bytes};
ghost use Rattle.std.specs.List.{All};
ghost use Rattle.rst_reject.specs.Steps.{Then};
ghost use Rattle.rst_reject.specs.declared.stop.Stop.TheVariants.{Rejected};
ghost use Rattle.rst_reject.specs.declared.reject.Reject.{Reject as Reject_};
ghost use Rattle.rst_demo.specs.Demo.{demo_source};
ghost use Rattle.rst_design.specs.Texts.{texts_of, IsShort};
ghost use Rattle.rst_answer.specs.declared.answer.Answer.TheVariants.{NoCommand};
ghost use Rattle.rst_answer.specs.Answers.{plain_due, refused_due, unread_of, CertFits};
ghost use Rattle.rst_question.specs.Questions.{Question as Question_, netlist};
ghost use Rattle.rst_replies.specs.Replies.{HasOrderedGates};
ghost use Rattle.rst_due.specs.Due.{DemoAsks, DemoDecides, Ends, unfiled};

use rst_answer::{Ready, refused};
use rst_demo::{demo_script, demo_source};
use rst_design::laws::one_answer;
use rst_outside::{Bytes, NoMemory};
use rst_question::{Places, read_question};
use rst_reject::{Reject, Stop};
use rst_replies::reply_demo;
use rst_source_machine::laws::netlists_are_orderly;
use std::alloc::Global;

// A refusal without a file: the texts of a demonstration have no words.
fn unfiled(reject: Reject) -> Reject
    ensures { result ≡ unfiled reject }
{
    Reject {
        file: None,
        ..reject
    }
}

// What is due where the question of a demonstration was refused.
fn demo_stopped(alloc: Global, words: &[String], stop: Stop) -> Result<Ready, NoMemory>
    ensures due { IfOk result (λ ready. (r : Reject_) × (stop ≡ Rejected r) × (plain_due ready ≡ refused_due (map string_bytes words.now) (unfiled r))) }
    ensures fits { IfOk result CertFits }
{
    match stop {
        Stop::Rejected(reject) => refused(alloc, words, unfiled(reject)),
        Stop::NoMemory => Err(NoMemory),
    }
}

// The source as the one file of a list.
fn sources_of(alloc: Global, source: &Bytes) -> Result<Vec<Vec<u8>>, NoMemory>
    requires { length source.now ≤ 1048576 }
    ensures texts { IfOk result (λ sources. texts_of sources.items ≡ source.now ∷ []) }
    ensures count { IfOk result (λ sources. length sources.items ≡ 1) }
    ensures short { IfOk result (λ sources. All IsShort sources.items) }
{
    let mut sources = Vec::new(alloc);
    sources.push(Vec::from_slice(alloc, source.as_slice())?)?;
    Ok(sources)
}

// The design's source.
fn source_of(alloc: Global, stages: u8) -> Result<Bytes, NoMemory>
    requires { stages ≤ 60 }
    ensures exact { IfOk result (λ source. source ≡ demo_source stages) }
    ensures short { IfOk result (λ source. length source ≤ 1048576) }
{
    demo_source(alloc, u32::from(stages))
}

/// What is due in `demo N`.
pub(crate) fn demo_due(alloc: Global, words: &[String], stages: u8) -> Result<Ready, NoMemory>
    requires { stages ≤ 60 }
    ensures ends { IfOk result (λ ready. Ends (Then (DemoAsks (map string_bytes words.now) stages) (DemoDecides stages)) (plain_due ready)) }
    ensures fits { IfOk result CertFits }
    ensures gates { IfOk result (λ ready. (q : Question_) → DemoAsks (map string_bytes words.now) stages (Ok q) → HasOrderedGates (netlist q)) }
{
    one_answer();
    netlists_are_orderly();
    let source = source_of(alloc, stages)?;
    let sources = sources_of(alloc, &source)?;
    let places = Places {
        script: 0,
        sources: 0,
    };
    match read_question(alloc, places, b"demo", demo_script(), sources.as_slice()) {
        Ok(question) => reply_demo(alloc, stages, &question),
        Err(stop) => demo_stopped(alloc, words, stop),
    }
}
