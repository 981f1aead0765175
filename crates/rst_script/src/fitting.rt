// The pattern of inputs that a script gives a design.
ghost use Rattle.std.specs.Prelude.{◌≡◌, ◌+◌, ◌*◌, ◌/◌, ◌%◌, ◌^◌, ◌==◌, nat_lt, ◌++◌, Some, None, Ok, Err, map, replicate, OnOk, IfOk, IfErr};
ghost use Rattle.rst_value.specs.declared.tern.Tern.TheVariants.{Unknown};
ghost use Rattle.rst_script.specs.Numbers.{at_most};
ghost use Rattle.rst_script.specs.Choices.{IsRefusal};
ghost use Rattle.rst_script.specs.Scripts.{plain_step};
ghost use Rattle.rst_script.specs.Fitting.{width_in, fits_width, setting_fault, settings_fault, value_in, place_at, known_places, places_of, cube_of, fit_of};

use crate::script::{Script, ScriptFault, Setting};
use rst_gate::{Cube, Pattern, free_places};
use rst_outside::{NoMemory, PortBits};
use rst_value::Tern;
use std::alloc::Global;

/// The most free bits that a script may give a design.
pub const MOST_FREE: u64 = 1024;

// The width of the input of this name.
fn width_in(ports: &[PortBits], name: &[u8]) -> Option<u8>
    ensures { result ≡ width_in ports.now name.now }
{
    for port in ports {
        if port.name.as_slice() == name {
            return Some(port.width);
        }
    }
    None
}

// Whether the value has no more bits.
fn is_below(value: u64, width: u8) -> bool
    ensures { result ≡ nat_lt value (2 ^ width) }
{
    width >= 64 || value >> width == 0
}

fn fits_width(width: u8, value: Option<u64>) -> bool
    ensures { result ≡ fits_width width value }
{
    match value {
        None => true,
        Some(value) => is_below(value, width),
    }
}

// Why a setting doesn't fit the inputs.
fn setting_fault(ports: &[PortBits], line: u32, setting: &Setting) -> Option<ScriptFault>
    ensures { result ≡ setting_fault ports.now line setting.now }
{
    match width_in(ports, setting.name.as_slice()) {
        None => Some(ScriptFault::BadName(line)),
        Some(width) => {
            if fits_width(width, setting.value) {
                None
            } else {
                Some(ScriptFault::BadValue(line))
            }
        }
    }
}

// Why the first of the settings that don't fit doesn't.
fn settings_fault(ports: &[PortBits], line: u32, settings: &[Setting]) -> Option<ScriptFault>
    ensures { result ≡ settings_fault ports.now line settings.now }
{
    for setting in settings {
        if let Some(fault) = setting_fault(ports, line, setting) {
            return Some(fault);
        }
    }
    None
}

// The value that the settings give an input, and 0 where none names it.
fn value_in(settings: &[Setting], name: &[u8]) -> Option<u64>
    ensures { result ≡ value_in settings.now name.now }
{
    for setting in settings {
        if setting.name.as_slice() == name {
            return setting.value;
        }
    }
    Some(0)
}

fn bit_at(value: u64, weight: u8) -> bool
    ensures { result ≡ ((value / 2 ^ weight) % 2 == 1) }
{
    weight < 64 && (value >> weight) % 2 == 1
}

// The bit of this weight as a known place.
fn place_at(value: u64, weight: u8) -> Tern
    ensures { result ≡ place_at value weight }
{
    if bit_at(value, weight) {
        Tern::One
    } else {
        Tern::Zero
    }
}

fn push_free(cube: &mut Cube, width: u8) -> Result<(), NoMemory>
    ensures { OnOk result (cube.new ≡ cube.old ++ replicate width Unknown) }
{
    for _ in 0..width {
        cube.push(Tern::Unknown)?;
    }
    Ok(())
}

// The bits of a number, the most significant first.
fn push_known(cube: &mut Cube, width: u8, value: u64) -> Result<(), NoMemory>
    ensures { OnOk result (cube.new ≡ cube.old ++ known_places width value) }
{
    let mut left = width;
    while left > 0 {
        left -= 1;
        cube.push(place_at(value, left))?;
    }
    Ok(())
}

fn push_places(cube: &mut Cube, width: u8, value: Option<u64>) -> Result<(), NoMemory>
    ensures { OnOk result (cube.new ≡ cube.old ++ places_of width value) }
{
    match value {
        None => push_free(cube, width),
        Some(value) => push_known(cube, width, value),
    }
}

// The inputs of a step: a place for each bit of the inputs, in their order.
fn cube_of(alloc: Global, ports: &[PortBits], settings: &[Setting]) -> Result<Cube, NoMemory>
    ensures { IfOk result (λ cube. cube ≡ cube_of ports.now settings.now) }
{
    let mut cube = Cube::new(alloc);
    for port in ports {
        let value = value_in(settings, port.name.as_slice());
        push_places(&mut cube, port.width, value)?;
    }
    Ok(cube)
}

// How many free bits there are with a step, if there aren't too many.
fn free_with(free: u64, times: u32, places: usize) -> Option<u64>
    ensures { result ≡ at_most 1024 (Some (free + times * places)) }
{
    let more = u64::from(times).checked_mul(places as u64)?;
    let all = free.checked_add(more)?;
    if all <= MOST_FREE { Some(all) } else { None }
}

fn push_copies(
    alloc: Global,
    pattern: &mut Pattern,
    cube: &Cube,
    times: u32,
) -> Result<(), NoMemory>
    ensures { OnOk result (pattern.new ≡ pattern.old ++ replicate times cube.now) }
{
    for _ in 0..times {
        let copy = Cube::from_slice(alloc, cube.as_slice())?;
        pattern.push(copy)?;
    }
    Ok(())
}

/// The pattern of inputs that the script gives a design with these inputs, the clock left out: as many
/// cubes as its steps have clock cycles, each with a place for every bit of the inputs in their order, the
/// most significant bit of each first. Or else the first fault.
///
/// Of the faults it answers `BadName`, `BadValue` and `TooFree`, step by step, `TooFree` behind all those
/// of the step's settings, and `NoMemory`.
pub fn fit_script(
    alloc: Global,
    script: &Script,
    ports: &[PortBits],
) -> Result<Pattern, ScriptFault>
    ensures pattern { IfOk result (λ pattern. fit_of ports.now (map plain_step script.now.steps.items) ≡ Ok pattern) }
    ensures fault { IfErr result (λ fault. IsRefusal fault → fit_of ports.now (map plain_step script.now.steps.items) ≡ Err fault) }
{
    let mut pattern = Pattern::new(alloc);
    let mut free = 0;
    for step in script.steps.as_slice() {
        let settings = step.values.as_slice();
        if let Some(fault) = settings_fault(ports, step.line, settings) {
            return Err(fault);
        }
        let cube = cube_of(alloc, ports, settings)?;
        let Some(more) = free_with(free, step.times, free_places(&cube)) else {
            return Err(ScriptFault::TooFree(step.line));
        };
        free = more;
        push_copies(alloc, &mut pattern, &cube, step.times)?;
    }
    Ok(pattern)
}
