// The lines `budget`, `bound` and `report`.
ghost use Rattle.std.specs.Prelude.{◌≡◌, ◌+◌, ◌≤◌, Ok, Err, length, IfOk, IfErr};
ghost use Rattle.rst_script.specs.Lines.{lines, words, said_lines};
ghost use Rattle.rst_script.specs.Choices.{json_of, choice_of, with_choice, choice_at, no_choices, choices_in, is_step_line};

use crate::lines::next_line;
use crate::numbers::read_within;
use crate::script::ScriptFault;
use crate::words::{split_pair, split_word};

const MOST_BUDGET: u32 = 100_000;

const MOST_BOUND: u32 = 128;

const BUDGET: &[u8] = b"budget";

const BOUND: &[u8] = b"bound";

const REPORT: &[u8] = b"report";

const TEXT: &[u8] = b"text";

const JSON: &[u8] = b"json";

const STEP: &[u8] = b"step";

// What one such line says.
#[derive(Clone, Copy)]
pub(crate) enum Choice {
    Budget(u32),
    Bound(u32),
    Json(bool),
}

// What the lines say that were read.
#[derive(Clone, Copy)]
pub(crate) struct Choices {
    pub(crate) budget: Option<u32>,
    pub(crate) bound: Option<u32>,
    pub(crate) json: Option<bool>,
}

// No such line.
pub(crate) const NO_CHOICES: Choices = Choices {
    budget: None,
    bound: None,
    json: None,
};

// Whether a report is JSON.
fn read_json(word: &[u8]) -> Option<bool>
    ensures { result ≡ json_of word.now }
{
    if word == TEXT {
        Some(false)
    } else if word == JSON {
        Some(true)
    } else {
        None
    }
}

// What the line says, where it is such a line.
fn read_choice(line: &[u8]) -> Option<Choice>
    ensures { result ≡ choice_of (words line.now) }
{
    let (word, value) = split_pair(line)?;
    if word == BUDGET {
        Some(Choice::Budget(read_within(0, MOST_BUDGET, value)?))
    } else if word == BOUND {
        Some(Choice::Bound(read_within(1, MOST_BOUND, value)?))
    } else if word == REPORT {
        Some(Choice::Json(read_json(value)?))
    } else {
        None
    }
}

// The choices with one more, which must be new.
fn with_choice(choices: Choices, choice: Choice, line: u32) -> Result<Choices, ScriptFault>
    ensures { result ≡ with_choice choices choice line }
{
    match choice {
        Choice::Budget(budget) => {
            if choices.budget.is_some() {
                return Err(ScriptFault::Repeated(line));
            }
            Ok(Choices {
                budget: Some(budget),
                ..choices
            })
        }
        Choice::Bound(bound) => {
            if choices.bound.is_some() {
                return Err(ScriptFault::Repeated(line));
            }
            Ok(Choices {
                bound: Some(bound),
                ..choices
            })
        }
        Choice::Json(json) => {
            if choices.json.is_some() {
                return Err(ScriptFault::Repeated(line));
            }
            Ok(Choices {
                json: Some(json),
                ..choices
            })
        }
    }
}

// The choices with that of a line.
fn choice_at(choices: Choices, line: &[u8], number: u32) -> Result<Choices, ScriptFault>
    ensures { result ≡ choice_at choices (record { number = number; words = words line.now }) }
{
    match read_choice(line) {
        None => Err(ScriptFault::BadLine(number)),
        Some(choice) => with_choice(choices, choice, number),
    }
}

// Whether the first word is `step`.
fn is_step_line(line: &[u8]) -> bool
    ensures { result ≡ is_step_line (words line.now) }
{
    match split_word(line) {
        None => false,
        Some((word, _)) => word == STEP,
    }
}

// The choices, how many lines were read with theirs, and what stands behind.
#[derive(Clone, Copy)]
pub(crate) struct Chosen<'a> {
    pub(crate) choices: Choices,
    pub(crate) before: u32,
    pub(crate) rest: &'a [u8],
}

// The choices in front of the steps.
pub(crate) fn read_choices(text: &[u8], before: u32) -> Result<Chosen<'_>, ScriptFault>
    requires { before + length text.now ≤ 1048576 }
    ensures found { IfOk result (λ it. choices_in no_choices (said_lines before (lines text.now)) ≡ Ok (it.choices, said_lines it.before (lines it.rest.now))) }
    ensures few { IfOk result (λ it. it.before + length it.rest.now ≤ 1048576) }
    ensures fault { IfErr result (λ fault. choices_in no_choices (said_lines before (lines text.now)) ≡ Err fault) }
{
    let mut it = Chosen {
        choices: NO_CHOICES,
        before,
        rest: text,
    };
    while let Ok(line) = next_line(it.rest, it.before) {
        if is_step_line(line.words) {
            return Ok(it);
        }
        it = Chosen {
            choices: choice_at(it.choices, line.words, line.number)?,
            before: line.number,
            rest: line.rest,
        };
    }
    Ok(it)
}
