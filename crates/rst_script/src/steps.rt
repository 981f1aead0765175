// The lines of the steps.
ghost use Rattle.std.specs.Prelude.{◌≡◌, ◌+◌, ◌≤◌, [], Some, None, Ok, Err, map, not, length, IfOk, IfErr, IfSome, IfNone};
ghost use Rattle.std.specs.List.{prefix_len};
ghost use Rattle.rst_script.specs.Lines.{lines, words, said_lines};
ghost use Rattle.rst_script.specs.Choices.{IsRefusal};
ghost use Rattle.rst_script.specs.Scripts.{plain_step};
ghost use Rattle.rst_script.specs.Steps.{is_sign, parted, last_of, step_words, value_of, setting_of, names_set, has_twice, settings_in, step_of, step_at, steps_in};

use crate::lines::next_line;
use crate::numbers::{read_repetition, read_value};
use crate::script::{ScriptFault, Setting, Step};
use crate::words::split_word;
use rst_lex::is_name;
use rst_outside::{Name, NoMemory};
use std::alloc::Global;
use std::collections::BTreeSet;

/// The most clock cycles that a script may have.
pub const MOST_CYCLES: u32 = 128;

const STEP: &[u8] = b"step";

const FREE: &[u8] = b"*";

// How many bytes stand before the first `=`.
fn name_len(word: &[u8]) -> usize
    ensures value { result ≡ prefix_len (λ b. not (is_sign b)) word.now }
    ensures within { result ≤ length word.now }
{
    word.iter().take_while(|b| **b != b'=').count()
}

// What stands before the first `=`, and what behind it.
fn split_setting(word: &[u8]) -> Option<(&[u8], &[u8])>
    ensures found { IfSome result (λ it. parted word.now ≡ Some (it.0.now, it.1.now)) }
    ensures none { IfNone result (parted word.now ≡ None) }
{
    let len = name_len(word);
    if len < word.len() {
        Some((&word[..len], &word[len + 1..]))
    } else {
        None
    }
}

// The value that a text gives, if it gives one: a number, or free bits.
fn read_setting_value(version: u32, text: &[u8]) -> Option<Option<u64>>
    ensures { result ≡ value_of version text.now }
{
    if text == FREE {
        if version == 2 { Some(None) } else { None }
    } else {
        Some(Some(read_value(text)?))
    }
}

// The name and the value that a word gives, if it is a setting.
fn read_setting(version: u32, word: &[u8]) -> Option<(&[u8], Option<u64>)>
    ensures found { IfSome result (λ it. setting_of version word.now ≡ Some (record { name = it.0.now; value = it.1 })) }
    ensures none { IfNone result (setting_of version word.now ≡ None) }
{
    let (name, text) = split_setting(word)?;
    if !is_name(name) {
        return None;
    }
    let value = read_setting_value(version, text)?;
    Some((name, value))
}

// What the words of a step say behind the first.
#[derive(Drop)]
struct Settings {
    values: Vec<Setting>,
    times: u32,
}

// The repetition that the last word gives, if the word is the last and gives one.
fn read_last(word: &[u8], behind: &[u8]) -> Option<u32>
    ensures { result ≡ last_of word.now (words behind.now) }
{
    match split_word(behind) {
        None => read_repetition(word),
        Some(_) => None,
    }
}

// The settings of a step, and how often it is repeated, by its words behind the first.
fn read_settings(alloc: Global, version: u32, line: &[u8]) -> Result<Option<Settings>, NoMemory>
    ensures found { IfOk result (λ found. IfSome found (λ it. settings_in version [] (words line.now) ≡ Some (it.values.items, it.times))) }
    ensures none { IfOk result (λ found. IfNone found (settings_in version [] (words line.now) ≡ None)) }
{
    let mut values = Vec::new(alloc);
    let mut rest = line;
    while let Some((word, behind)) = split_word(rest) {
        let Some((name, value)) = read_setting(version, word) else {
            let Some(times) = read_last(word, behind) else {
                return Ok(None);
            };
            return Ok(Some(Settings { values, times }));
        };
        let name = Name::new(alloc, name)?;
        values.push(Setting { name, value })?;
        rest = behind;
    }
    Ok(Some(Settings { values, times: 1 }))
}

// Whether two settings name the same input.
fn sets_twice(alloc: Global, settings: &[Setting]) -> Result<bool, NoMemory>
    ensures { IfOk result (λ twice. twice ≡ has_twice [] (names_set settings.now)) }
{
    let mut names = BTreeSet::new(alloc);
    for setting in settings {
        if !names.insert(setting.name.as_slice())? {
            return Ok(true);
        }
    }
    Ok(false)
}

// What the line says behind the word `step`, if it is such a line.
fn behind_step(line: &[u8]) -> Option<&[u8]>
    ensures found { IfSome result (λ rest. step_words (words line.now) ≡ Some (words rest.now)) }
    ensures none { IfNone result (step_words (words line.now) ≡ None) }
{
    let (word, rest) = split_word(line)?;
    if word == STEP { Some(rest) } else { None }
}

// The settings that a line gives, if it is the line of a step.
fn read_step_line(alloc: Global, version: u32, line: &[u8]) -> Result<Option<Settings>, NoMemory>
    ensures found { IfOk result (λ found. IfSome found (λ it. step_of version (words line.now) ≡ Some (it.values.items, it.times))) }
    ensures none { IfOk result (λ found. IfNone found (step_of version (words line.now) ≡ None)) }
{
    match behind_step(line) {
        None => Ok(None),
        Some(rest) => read_settings(alloc, version, rest),
    }
}

// The step of a line behind so many cycles.
fn read_step(
    alloc: Global,
    version: u32,
    cycles: u32,
    line: &[u8],
    number: u32,
) -> Result<Step, ScriptFault>
    requires { cycles ≤ 128 }
    ensures step { IfOk result (λ step. step_at version cycles (record { number = number; words = words line.now }) ≡ Ok (plain_step step)) }
    ensures few { IfOk result (λ step. cycles + step.times ≤ 128) }
    ensures fault { IfErr result (λ fault. IsRefusal fault → step_at version cycles (record { number = number; words = words line.now }) ≡ Err fault) }
{
    let Some(it) = read_step_line(alloc, version, line)? else {
        return Err(ScriptFault::BadLine(number));
    };
    if sets_twice(alloc, it.values.as_slice())? {
        return Err(ScriptFault::Repeated(number));
    }
    if it.times > MOST_CYCLES - cycles {
        return Err(ScriptFault::TooMany(number));
    }
    Ok(Step {
        line: number,
        times: it.times,
        values: it.values,
    })
}

// The steps, to the end of the text.
pub(crate) fn read_steps(
    alloc: Global,
    version: u32,
    text: &[u8],
    before: u32,
) -> Result<Vec<Step>, ScriptFault>
    requires { before + length text.now ≤ 1048576 }
    ensures steps { IfOk result (λ steps. steps_in version 0 [] (said_lines before (lines text.now)) ≡ Ok (map plain_step steps.items)) }
    ensures fault { IfErr result (λ fault. IsRefusal fault → steps_in version 0 [] (said_lines before (lines text.now)) ≡ Err fault) }
{
    let mut steps = Vec::new(alloc);
    let mut cycles = 0;
    let mut rest = text;
    let mut number = before;
    while let Ok(line) = next_line(rest, number) {
        let step = read_step(alloc, version, cycles, line.words, line.number)?;
        cycles += step.times;
        steps.push(step)?;
        rest = line.rest;
        number = line.number;
    }
    Ok(steps)
}
