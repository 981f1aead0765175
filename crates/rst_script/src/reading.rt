// Reads a script's text.
ghost use Rattle.std.specs.Prelude.{◌≡◌, ◌+◌, ◌≤◌, [], ◌∷◌, Ok, Err, length, IfOk, IfErr};
ghost use Rattle.rst_script.specs.Lines.{lines, words, said_lines};
ghost use Rattle.rst_script.specs.Choices.{IsRefusal};
ghost use Rattle.rst_script.specs.Scripts.{plain_script, body_of, script_of};
ghost use Rattle.rst_script.specs.declared.script.ScriptFault.TheVariants.{BadLine};

use crate::choices::read_choices;
use crate::lines::{Line, next_line};
use crate::opening::{read_clock, read_version};
use crate::script::{Script, ScriptFault};
use crate::steps::read_steps;
use rst_outside::Name;
use std::alloc::Global;

const USUAL_BUDGET: u32 = 20_000;

const USUAL_BOUND: u32 = 32;

// The script behind the line of the clock.
fn read_body(
    alloc: Global,
    version: u32,
    clock: Option<Name>,
    text: &[u8],
    before: u32,
) -> Result<Script, ScriptFault>
    requires { before + length text.now ≤ 1048576 }
    ensures script { IfOk result (λ script. body_of version clock (said_lines before (lines text.now)) ≡ Ok (plain_script script)) }
    ensures fault { IfErr result (λ fault. IsRefusal fault → body_of version clock (said_lines before (lines text.now)) ≡ Err fault) }
{
    let it = read_choices(text, before)?;
    let steps = read_steps(alloc, version, it.rest, it.before)?;
    Ok(Script {
        version,
        clock,
        budget: it.choices.budget.unwrap_or(USUAL_BUDGET),
        bound: it.choices.bound.unwrap_or(USUAL_BOUND),
        json: it.choices.json.unwrap_or(false),
        steps,
    })
}

// The next line that says something, which must be there.
fn line_due(text: &[u8], before: u32) -> Result<Line<'_>, ScriptFault>
    requires { before + length text.now ≤ 1048576 }
    ensures found { IfOk result (λ it. said_lines before (lines text.now) ≡ record { number = it.number; words = words it.words.now } ∷ said_lines it.number (lines it.rest.now)) }
    ensures counted { IfOk result (λ it. it.number + length (lines it.rest.now) ≡ before + length (lines text.now)) }
    ensures few { IfOk result (λ it. it.number + length it.rest.now ≤ 1048576) }
    ensures end { IfErr result (λ _. said_lines before (lines text.now) ≡ []) }
    ensures fault { IfErr result (λ fault. fault ≡ BadLine (before + length (lines text.now) + 1)) }
{
    match next_line(text, before) {
        Ok(line) => Ok(line),
        Err(count) => Err(ScriptFault::BadLine(count + 1)),
    }
}

/// Reads a script: the one that the text says, or else the first line at fault.
///
/// Of the faults it answers `BadLine`, `Repeated` and `TooMany`, in this order where a line has several of
/// them, and `NoMemory`.
pub fn read_script(alloc: Global, text: &[u8]) -> Result<Script, ScriptFault>
    requires { length text.now ≤ 1048576 }
    ensures script { IfOk result (λ script. script_of text.now ≡ Ok (plain_script script)) }
    ensures fault { IfErr result (λ fault. IsRefusal fault → script_of text.now ≡ Err fault) }
{
    let header = line_due(text, 0)?;
    let Some(version) = read_version(header.words) else {
        return Err(ScriptFault::BadLine(header.number));
    };
    let line = line_due(header.rest, header.number)?;
    match read_clock(line.words) {
        None => Err(ScriptFault::BadLine(line.number)),
        Some(None) => read_body(alloc, version, None, line.rest, line.number),
        Some(Some(name)) => {
            let name = Name::new(alloc, name)?;
            read_body(alloc, version, Some(name), line.rest, line.number)
        }
    }
}
