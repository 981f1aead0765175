// What is due in `check` and `known`, which load a script and sources.
ghost use Rattle.std.specs.Prelude.{◌≡◌, ◌≢◌, ◌≤◌, ◌<◌, Ok, Err, None, IfOk, IfSome, IsTrue, length, map, string_bytes};
ghost use Rattle.std.specs.List.{All, Contains};
ghost use Rattle.rst_outside.specs.Causes.{Rose};
ghost use Rattle.rst_reject.specs.Steps.{Then};
ghost use Rattle.rst_command.specs.Commands.{plain_input};
ghost use Rattle.rst_loads.specs.Loads.{IsShort, plain_texts, places};
ghost use Rattle.rst_answer.specs.declared.answer.Answer.TheVariants.{NoCommand};
ghost use Rattle.rst_answer.specs.Answers.{plain_due, unread_of, CertFits};
ghost use Rattle.rst_question.specs.Questions.{Question as Question_, Stands, netlist};
ghost use Rattle.rst_replies.specs.Replies.{IsSound, HasOrderedGates};
ghost use Rattle.rst_design.specs.Netlists.{plain_net};
ghost use Rattle.rst_due.specs.Due.{Asks, QuestionDecides, InputRuns, Ends};
ghost use Rattle.rst_due.specs.Asked.{InputAsks};

use crate::stops::{load_stopped, question_stopped};
use rst_answer::Ready;
use rst_command::Input;
use rst_design::laws::one_answer;
use rst_loads::{Texts, load_texts};
use rst_outside::{Desk, NoMemory};
use rst_question::{Places, Question, read_question};
use rst_replies::{reply_check, reply_known};
use rst_source_machine::laws::netlists_are_orderly;
use std::alloc::Global;

/// What a question is read for.
#[derive(Clone, Copy, Debug, PartialEq, Eq)]
pub enum Purpose {
    /// To be decided.
    Check,
    /// For the registers that are known.
    Known,
}

// Where the files' words stand.
fn places_of(input: &Input<'_>) -> Places
    ensures { result ≡ record { script = input.now.script.place; sources = input.now.files.first } }
{
    Places {
        script: input.script.place,
        sources: input.files.first,
    }
}

// What is due of a question.
fn question_due(
    alloc: Global,
    purpose: Purpose,
    input: &Input<'_>,
    question: &Question,
) -> Result<Ready, NoMemory>
    requires { IsSound question.now }
    ensures ends { IfOk result (λ ready. (q : Question_) → Stands q question.now
        → Ends (QuestionDecides (plain_input input.now) purpose q) (plain_due ready)) }
    ensures fits { IfOk result CertFits }
    ensures gates { IfOk result (λ ready. HasOrderedGates (plain_net question.now.net)) }
{
    match purpose {
        Purpose::Check => reply_check(alloc, input.top, question),
        Purpose::Known => reply_known(alloc, question),
    }
}

// What is due of the texts.
fn texts_due(
    alloc: Global,
    words: &[String],
    purpose: Purpose,
    input: &Input<'_>,
    texts: &Texts,
) -> Result<Ready, NoMemory>
    requires script { IsShort texts.now.script.items }
    requires sources { All (λ text. IsShort text.items) texts.now.sources.items }
    requires count { length texts.now.sources.items ≡ length input.now.files.texts.now }
    ensures ends { IfOk result (λ ready. Ends (Then (Asks (map string_bytes words.now) (plain_input input.now) (plain_texts texts.now))
        (QuestionDecides (plain_input input.now) purpose)) (plain_due ready)) }
    ensures fits { IfOk result CertFits }
    ensures gates { IfOk result (λ ready. (q : Question_) → Asks (map string_bytes words.now) (plain_input input.now) (plain_texts texts.now) (Ok q)
        → HasOrderedGates (netlist q)) }
{
    one_answer();
    netlists_are_orderly();
    match read_question(
        alloc,
        places_of(input),
        input.top.as_bytes(),
        texts.script.as_slice(),
        texts.sources.as_slice(),
    ) {
        Ok(question) => question_due(alloc, purpose, input, &question),
        Err(stop) => question_stopped(alloc, words, stop),
    }
}

/// What is due in `check` and `known`.
pub(crate) fn input_due<K: Desk>(
    alloc: Global,
    words: &[String],
    desk: &mut K,
    purpose: Purpose,
    input: &Input<'_>,
) -> Result<Ready, NoMemory>
    requires { input.now.script.place < input.now.files.first }
    ensures due { IfOk result (λ ready. IfSome (K.files desk.old) (λ files.
        InputRuns (map string_bytes words.now) files (unread_of (plain_due ready).answer) purpose (plain_input input.now) (Err (plain_due ready)))) }
    ensures fits { IfOk result CertFits }
    ensures gates { IfOk result (λ ready. IfSome (K.files desk.old) (λ files. (q : Question_)
        → InputAsks (map string_bytes words.now) files (unread_of (plain_due ready).answer) (plain_input input.now) q → HasOrderedGates (netlist q))) }
    ensures failed { IfOk result (λ ready. IfSome (unread_of (plain_due ready).answer) (λ place.
        Contains (places (plain_input input.now)) place × Rose (K.load_faults desk.old) (K.load_faults desk.new))) }
    ensures some { IfOk result (λ ready. (plain_due ready).answer ≢ NoCommand) }
    ensures sure { IfOk result (λ ready. IsTrue (K.sure_loads desk.old) → IfSome (K.files desk.old) (λ files.
        InputRuns (map string_bytes words.now) files None purpose (plain_input input.now) (Err (plain_due ready)))) }
    ensures kept { K.files desk.new ≡ K.files desk.old }
    ensures saves { K.save_faults desk.new ≡ K.save_faults desk.old }
    ensures room { K.sure_room desk.new ≡ K.sure_room desk.old }
{
    match load_texts(alloc, desk, input) {
        Ok(texts) => texts_due(alloc, words, purpose, input, &texts),
        Err(stop) => load_stopped(alloc, words, stop),
    }
}
