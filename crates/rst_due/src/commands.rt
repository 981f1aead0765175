// What is due of a command.
ghost use Rattle.std.specs.Prelude.{◌≡◌, ◌≢◌, Err, None, Some, IfOk, IfSome, IsTrue, map, string_bytes};
ghost use Rattle.std.specs.List.{Contains};
ghost use Rattle.rst_outside.specs.Causes.{Rose};
ghost use Rattle.rst_command.specs.Commands.{command_of, plain_command};
ghost use Rattle.rst_answer.specs.declared.answer.Answer.TheVariants.{NoCommand};
ghost use Rattle.rst_answer.specs.Answers.{plain_due, unread_of, CertFits};
ghost use Rattle.rst_question.specs.Questions.{Question as Question_, netlist};
ghost use Rattle.rst_replies.specs.Replies.{HasOrderedGates};
ghost use Rattle.rst_due.specs.Due.{CommandRuns};
ghost use Rattle.rst_due.specs.Asked.{loaded, CommandAsks};

use crate::demo::demo_due;
use crate::input::{Purpose, input_due};
use rst_answer::Ready;
use rst_command::Command;
use rst_outside::{Desk, NoMemory};
use std::alloc::Global;

/// What is due of a command: it loads the files that the command names, and decides. Nothing is written.
///
/// The words spell the command. The due answer is the one of the chain of steps (`due`), where the load that is said to have failed is
/// one of the command's and is counted (`failed`); of a desk whose loads are sure it is the one that is due where no load has failed
/// (`sure`).
pub fn due<K: Desk>(
    alloc: Global,
    words: &[String],
    desk: &mut K,
    command: &Command<'_>,
) -> Result<Ready, NoMemory>
    requires { command_of (map string_bytes words.now) ≡ Some (plain_command command.now) }
    ensures due { IfOk result (λ ready. IfSome (K.files desk.old) (λ files.
        CommandRuns (map string_bytes words.now) files (unread_of (plain_due ready).answer) (plain_command command.now) (Err (plain_due ready)))) }
    ensures fits { IfOk result CertFits }
    ensures gates { IfOk result (λ ready. IfSome (K.files desk.old) (λ files. (q : Question_)
        → CommandAsks (map string_bytes words.now) files (unread_of (plain_due ready).answer) (plain_command command.now) q → HasOrderedGates (netlist q))) }
    ensures failed { IfOk result (λ ready. IfSome (unread_of (plain_due ready).answer) (λ place.
        Contains (loaded (plain_command command.now)) place × Rose (K.load_faults desk.old) (K.load_faults desk.new))) }
    ensures some { IfOk result (λ ready. (plain_due ready).answer ≢ NoCommand) }
    ensures sure { IfOk result (λ ready. IsTrue (K.sure_loads desk.old) → IfSome (K.files desk.old) (λ files.
        CommandRuns (map string_bytes words.now) files None (plain_command command.now) (Err (plain_due ready)))) }
    ensures kept { K.files desk.new ≡ K.files desk.old }
    ensures saves { K.save_faults desk.new ≡ K.save_faults desk.old }
    ensures room { K.sure_room desk.new ≡ K.sure_room desk.old }
{
    match command {
        Command::Check { input, .. } => input_due(alloc, words, desk, Purpose::Check, input),
        Command::Known(input) => input_due(alloc, words, desk, Purpose::Known, input),
        Command::Demo(stages) => demo_due(alloc, words, *stages),
    }
}
