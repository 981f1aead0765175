//! The due answer.
ghost use Rattle.std.specs.Prelude.{◌≡◌, ℕ, List, Some, Err};
ghost use Rattle.std.specs.declared.option.Option.{Option};
ghost use Rattle.rst_outside.specs.declared.desk.DeskFile.{DeskFile};
ghost use Rattle.rst_command.specs.Commands.{Command, command_of};
ghost use Rattle.rst_answer.specs.Answers.{Due};
ghost use Rattle.rst_question.specs.Questions.{Question};
ghost use Rattle.rst_due.specs.Due.{IsDue, AreOne, CommandDecides};
ghost use Rattle.rst_due.specs.Asked.{CommandAsks};

use rst_design::laws::one_answer;

/// At most one answer is due of words, files and the place of the word whose load failed, if one did; but for the evidence of a verdict,
/// of which there may be several (`one`). Where a command asks a question, that question is answered (`asked`).
pub fn one_due()
    ensures one { (words : List (List ℕ)) (files : List DeskFile) (failed : Option ℕ) (a b : Due)
        → IsDue words files failed a → IsDue words files failed b → AreOne a b }
    ensures asked { (words : List (List ℕ)) (files : List DeskFile) (failed : Option ℕ) (command : Command) (q : Question) (due : Due)
        → command_of words ≡ Some command → CommandAsks words files failed command q → IsDue words files failed due → CommandDecides command q (Err due) }
{
    one_answer();
}
