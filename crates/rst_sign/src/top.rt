// The top call.
ghost use Rattle.std.specs.Prelude.{◌≡◌, ◌≢◌, ◌⊎◌, ◌↔◌, List, None, Some, IfSome, IsNone, IsSome, IsTrue, IfOk, IfErr, map, string_bytes, false};
ghost use Rattle.std.specs.Io.KnownBytes.{Appends};
ghost use Rattle.rst_outside.specs.Causes.{Rose};
ghost use Rattle.rst_outside.specs.Files.{ChangesOnly};
ghost use Rattle.rst_value.specs.declared.tern.Tern.{Tern};
ghost use Rattle.rst_verdict.specs.declared.verdict.Verdict.{Verdict};
ghost use Rattle.rst_verdict.specs.declared.verdict.Verdict.TheVariants.{SignedKnown};
ghost use Rattle.rst_command.specs.Commands.{command_of, plain_command};
ghost use Rattle.rst_reject.specs.declared.reject.Reject.{Reject as Reject_};
ghost use Rattle.rst_answer.specs.declared.answer.Answer.TheVariants.{NoCommand};
ghost use Rattle.rst_answer.specs.Answers.{Due, usage_line, no_memory, status_of, Carries};
ghost use Rattle.rst_question.specs.Questions.{Question};
ghost use Rattle.rst_replies.specs.Replies.{Knows, IsVerdictOf, shown_due};
ghost use Rattle.rst_due.specs.Due.{IsDue};
ghost use Rattle.rst_due.specs.Asked.{IsDecided, IsShown};
ghost use Rattle.rst_sign.specs.Run.{Outside, Writes, IsLoaded, IsRun, Runs, cert_name, saved_under};
ghost use Rattle.rst_sign.specs.Promises.{IsSigned, IsRefutedBy, IsUnknown, IsRefused, IsUnread, is_check};

use crate::deliver::{deliver, put_answer};
use crate::laws::verdicts_hold;
use rst_answer::{Answer, Outcome, Status, usage};
use rst_command::{Command, read_command};
use rst_due::due;
use rst_due::laws::one_due;
use rst_outside::{Desk, NoMemory, Sink};
use std::alloc::Global;

// The name under which a command saves its certificate; empty where it saves none.
fn saved_name(command: Command<'_>) -> &str
    ensures { result.now ≡ saved_under (plain_command command.entry) }
{
    match command {
        Command::Check { cert, .. } => cert,
        Command::Known(_) | Command::Demo(_) => "",
    }
}

// Runs a command. Where memory runs out, nothing is saved or put.
fn act_on<K: Desk, S: Sink>(
    alloc: Global,
    words: &[String],
    command: Command<'_>,
    desk: &mut K,
    sink: &mut S,
) -> Result<Outcome, NoMemory>
    requires { command_of (map string_bytes words.now) ≡ Some (plain_command command) }
    ensures runs { let old : Outside = record {
      files = K.files desk.old;
      load_faults = K.load_faults desk.old;
      save_faults = K.save_faults desk.old;
      sure_loads = K.sure_loads desk.old;
      save_room = K.sure_room desk.old;
      taken = S.taken sink.old;
      put_faults = S.faults sink.old;
      put_room = S.sure_room sink.old;
    } in
        let new : Outside = record {
          files = K.files desk.new;
          load_faults = K.load_faults desk.new;
          save_faults = K.save_faults desk.new;
          sure_loads = K.sure_loads desk.new;
          save_room = K.sure_room desk.new;
          taken = S.taken sink.new;
          put_faults = S.faults sink.new;
          put_room = S.sure_room sink.new;
        } in
        IfOk result (Runs (map string_bytes words.now) (plain_command command.entry) old new) }
    ensures nothing { IfErr result (λ _. (K.files desk.new ≡ K.files desk.old) × (S.taken sink.new ≡ S.taken sink.old)) }
{
    match due(alloc, words, desk, &command) {
        Ok(ready) => deliver(alloc, ready, saved_name(command), desk, sink),
        Err(NoMemory) => Err(NoMemory),
    }
}

// Runs the command that the words spell.
fn act<K: Desk, S: Sink>(alloc: Global, words: &Vec<String>, desk: &mut K, sink: &mut S) -> Outcome
    ensures { let old : Outside = record {
      files = K.files desk.old;
      load_faults = K.load_faults desk.old;
      save_faults = K.save_faults desk.old;
      sure_loads = K.sure_loads desk.old;
      save_room = K.sure_room desk.old;
      taken = S.taken sink.old;
      put_faults = S.faults sink.old;
      put_room = S.sure_room sink.old;
    } in
        let new : Outside = record {
          files = K.files desk.new;
          load_faults = K.load_faults desk.new;
          save_faults = K.save_faults desk.new;
          sure_loads = K.sure_loads desk.new;
          save_room = K.sure_room desk.new;
          taken = S.taken sink.new;
          put_faults = S.faults sink.new;
          put_room = S.sure_room sink.new;
        } in
        IsRun (map string_bytes words.now.items) old new result }
{
    let list = words.as_slice();
    let Some(command) = read_command(list) else {
        return put_answer(Answer::NoCommand, usage(), sink);
    };
    match act_on(alloc, list, command, desk, sink) {
        Ok(outcome) => outcome,
        Err(NoMemory) => Outcome::no_memory(),
    }
}

/// Runs the command that the words spell, and answers what it ended with.
///
/// `words` are the command's words without the program's name:
///
///     check TOP SCRIPT CERT FILE..
///     known TOP SCRIPT FILE..
///     demo N
///
/// `check` loads the script SCRIPT and the sources FILE.. through the desk, decides whether the script's sequence is an essential reset
/// sequence of the module TOP, saves a certificate under CERT, and puts a report into the sink, in one piece. `known` puts the
/// three-valued registers at power-up and behind each clock cycle of the sequence. `demo` checks a made design of N stages, and saves
/// nothing.
///
/// Status by status:
/// - `Signed`: any two power-up states of the design give equal outputs at every cycle behind the sequence, whatever inputs follow, and
///   however the free bits are filled.
/// - `Refuted`: behind the sequence, with its free bits filled as the verdict says, two power-up states give different outputs.
/// - `Unknown`: the script's budget was spent before the sequence was signed or refuted.
/// - `Shown`: the rows are put.
/// - `Usage`: the words spell no command. It takes no memory.
/// - `ReadFault`: a load failed; `unread` is the place of its word.
/// - `Rejected`: `reject` says why: a file is longer than 1,048,576 bytes, a text or the design is refused, or the script doesn't fit the
///   design's inputs.
/// - `WriteFault`: the certificate could not be saved, or the text could not be put whole. The outcome keeps what was due.
/// - `NoMemory`: memory ran out before anything was written.
///
/// `NonResettable` and `Alignable` are statuses of a search for a sequence, and come of none of these commands.
pub fn run<K: Desk, S: Sink>(
    alloc: Global,
    words: &Vec<String>,
    desk: &mut K,
    sink: &mut S,
) -> Outcome
    // DUE. Unless memory runs out, an answer is due of the words, the files and the place of the failed load, and the run writes it: the
    // outcome carries it, or a fault of writing in its place; its text is put, its certificate saved under CERT, and no other file changes.
    ensures due { let old : Outside = record {
      files = K.files desk.old;
      load_faults = K.load_faults desk.old;
      save_faults = K.save_faults desk.old;
      sure_loads = K.sure_loads desk.old;
      save_room = K.sure_room desk.old;
      taken = S.taken sink.old;
      put_faults = S.faults sink.old;
      put_room = S.sure_room sink.old;
    } in
        let new : Outside = record {
          files = K.files desk.new;
          load_faults = K.load_faults desk.new;
          save_faults = K.save_faults desk.new;
          sure_loads = K.sure_loads desk.new;
          save_room = K.sure_room desk.new;
          taken = S.taken sink.new;
          put_faults = S.faults sink.new;
          put_room = S.sure_room sink.new;
        } in
        result.status ≢ Status.NoMemory → IfSome (K.files desk.old) (λ files. (due : Due)
        × IsDue (map string_bytes words.now.items) files result.unread due × Writes (cert_name (map string_bytes words.now.items)) due old new result) }

    // SIGNED. Only where the words spell `check` or `demo`, and their loaded bytes ask a question whose pattern the verdict keeps. That is an
    // essential reset sequence of the one machine that the flat design is: any two power-up states behave the same behind every filling.
    ensures signed { result.status ≡ Status.Signed → IfSome (K.files desk.old) (λ files. (q : Question)
        × IsDecided (map string_bytes words.now.items) files None q × IsSigned result q) }

    // REFUTED. Only of such a question; behind a filling of its pattern two power-up states of that machine give different outputs.
    ensures refuted { result.status ≡ Status.Refuted → IfSome (K.files desk.old) (λ files. (q : Question)
        × IsDecided (map string_bytes words.now.items) files None q × IsRefutedBy result q) }

    // UNKNOWN. Only of such a question behind whose pattern a register stays unknown in three values, and with all of the budget spent: the
    // verdict keeps exactly as many entries as the script allows, and they are work.
    ensures unknown { result.status ≡ Status.Unknown → IfSome (K.files desk.old) (λ files. (q : Question)
        × IsDecided (map string_bytes words.now.items) files None q × IsUnknown result q) }

    // VERDICT. A verdict that is kept, also where a write failed, is one that may be answered of a question that is decided.
    ensures verdict { result.status ≢ Status.NoMemory → IfSome (K.files desk.old) (λ files. (verdict : Verdict) → result.verdict ≡ Some verdict
        → (q : Question) × IsDecided (map string_bytes words.now.items) files result.unread q × IsVerdictOf q verdict) }

    // KNOWN. The verdict is SignedKnown exactly where three-valued simulation knows every register behind the pattern.
    ensures known { result.status ≢ Status.NoMemory → IfSome (K.files desk.old) (λ files. (pattern : List (List Tern))
        → (result.verdict ≡ Some (SignedKnown pattern)) ↔ ((q : Question)
        × IsDecided (map string_bytes words.now.items) files result.unread q × Knows q × (pattern ≡ q.pattern))) }

    // ALWAYS SIGNED. Where no count of faults rises, a question behind whose pattern three-valued simulation knows every register is signed,
    // and every question that is decided has its verdict, unless memory runs out.
    ensures always_signed { IfSome (K.files desk.old) (λ files. (q : Question)
        → IsDecided (map string_bytes words.now.items) files None q → Knows q
        → (Rose (K.load_faults desk.old) (K.load_faults desk.new) → ⊥)
        → (Rose (K.save_faults desk.old) (K.save_faults desk.new) → ⊥)
        → (Rose (S.faults sink.old) (S.faults sink.new) → ⊥)
        → (result.status ≡ Status.Signed) ⊎ (result.status ≡ Status.NoMemory)) }
    ensures always_decided { IfSome (K.files desk.old) (λ files. (q : Question)
        → IsDecided (map string_bytes words.now.items) files None q
        → (Rose (K.load_faults desk.old) (K.load_faults desk.new) → ⊥)
        → (Rose (K.save_faults desk.old) (K.save_faults desk.new) → ⊥)
        → (Rose (S.faults sink.old) (S.faults sink.new) → ⊥)
        → ((verdict : Verdict) × IsVerdictOf q verdict × (result.verdict ≡ Some verdict) × (result.status ≡ status_of verdict)) ⊎ (result.status ≡ Status.NoMemory)) }

    // SHOWN. Only of a question that `known` asks, and the rows of its registers are put; and, where no count of faults rises, always of
    // such a question, unless memory runs out.
    ensures shown { result.status ≡ Status.Shown → IfSome (K.files desk.old) (λ files. (q : Question)
        × IsShown (map string_bytes words.now.items) files None q × Appends (S.taken sink.old) (S.taken sink.new) (shown_due q).text) }
    ensures always_shown { IfSome (K.files desk.old) (λ files. (q : Question)
        → IsShown (map string_bytes words.now.items) files None q
        → (Rose (K.load_faults desk.old) (K.load_faults desk.new) → ⊥)
        → (Rose (K.save_faults desk.old) (K.save_faults desk.new) → ⊥)
        → (Rose (S.faults sink.old) (S.faults sink.new) → ⊥)
        → (result.status ≡ Status.Shown) ⊎ (result.status ≡ Status.NoMemory)) }

    // USAGE. Exactly where the words spell no command.
    ensures usage { IsNone (command_of (map string_bytes words.now.items)) → Carries NoCommand result }
    ensures usage_only { result.status ≡ Status.Usage → IsNone (command_of (map string_bytes words.now.items)) }
    ensures usage_text { IsNone (command_of (map string_bytes words.now.items)) → result.status ≡ Status.Usage
        → Appends (S.taken sink.old) (S.taken sink.new) usage_line }

    // READ FAULT. Only where the desk counts a failed load; `unread` is the place of a word that the command loads, and each load before
    // it gives a text of at most 1,048,576 bytes.
    ensures read_fault { result.status ≡ Status.ReadFault → IsSome result.unread }
    ensures unread { IfSome result.unread (λ place. IsLoaded (map string_bytes words.now.items) place
        × Rose (K.load_faults desk.old) (K.load_faults desk.new)) }
    ensures earlier_held { IfSome result.unread (λ place. IfSome (K.files desk.old) (λ files.
        IsUnread (map string_bytes words.now.items) files place)) }

    // Where the desk's loads are sure, what is due is what is due where no load has failed: a read fault then comes of an absent file alone.
    ensures sure_loads { IsTrue (K.sure_loads desk.old) → result.status ≢ Status.NoMemory → IfSome (K.files desk.old) (λ files.
        (due : Due) × IsDue (map string_bytes words.now.items) files None due × Carries due.answer result) }

    // REJECTED. The refusal, with its code, file, name and number, is exactly the one that the steps of the words come to first.
    ensures rejected { result.status ≡ Status.Rejected → IsSome result.reject }
    ensures refused { result.status ≢ Status.NoMemory → IfSome (K.files desk.old) (λ files. (reject : Reject_)
        → (result.reject ≡ Some reject) ↔ IsRefused (map string_bytes words.now.items) files result.unread reject) }

    // KEPT. Verdict, refusal and unread file are kept with their own status and with a fault of writing alone.
    ensures kept_verdict { IfSome result.verdict (λ verdict. (result.status ≡ status_of verdict) ⊎ (result.status ≡ Status.WriteFault)) }
    ensures kept_reject { IsSome result.reject → (result.status ≡ Status.Rejected) ⊎ (result.status ≡ Status.WriteFault) }
    ensures kept_unread { IsSome result.unread → (result.status ≡ Status.ReadFault) ⊎ (result.status ≡ Status.WriteFault) }

    // FILES. No file but CERT changes, and none where no verdict is kept or where the command isn't `check`.
    ensures other_files { ChangesOnly (cert_name (map string_bytes words.now.items)) (K.files desk.old) (K.files desk.new) }
    ensures no_certificate { IfSome (K.files desk.old) (λ files. IsNone result.verdict → K.files desk.new ≡ Some files) }
    ensures only_check_saves { IfSome (K.files desk.old) (λ files. is_check (command_of (map string_bytes words.now.items)) ≡ false → K.files desk.new ≡ Some files) }

    // WRITE FAULT. Only where a save or a put of this call is counted as failed.
    ensures write_fault { result.status ≡ Status.WriteFault
        → Rose (K.save_faults desk.old) (K.save_faults desk.new) ⊎ Rose (S.faults sink.old) (S.faults sink.new) }

    // NO MEMORY. Only of a command; the outcome keeps nothing, nothing is put, and no file changes.
    ensures no_memory { result.status ≡ Status.NoMemory → result ≡ no_memory }
    ensures memory_command { result.status ≡ Status.NoMemory → IsSome (command_of (map string_bytes words.now.items)) }
    ensures nothing_put { result.status ≡ Status.NoMemory → S.taken sink.new ≡ S.taken sink.old }
    ensures nothing_saved { result.status ≡ Status.NoMemory → K.files desk.new ≡ K.files desk.old }
{
    one_due();
    verdicts_hold();
    act(alloc, words, desk, sink)
}
