// Values of ports and registers as JSON.
ghost use Rattle.std.specs.Prelude.{◌≡◌, ◌++◌, ◌∷◌, [], map, string_bytes, OnOk, IfOk};
ghost use Rattle.serde_json.specs.Data.{put};
ghost use Rattle.serde_json.specs.View.{view};
ghost use Rattle.rst_gate.specs.Patterns.{known_pattern};
ghost use Rattle.rst_value.specs.Terns.{known};
ghost use Rattle.rst_report.specs.Rows.{digit};
ghost use Rattle.rst_report.specs.Reports.{free_mark};
ghost use Rattle.rst_report_json.specs.JsonReports.{name_text, places_data, with_values, values_data, pattern_data};
ghost use Rattle.rst_report_json.specs.Objects.{members};

use crate::object::Object;
use rst_gate::{Bits, Cube, Sequence, known_cube, known_pattern};
use rst_outside::{NoMemory, PortBits};
use rst_value::Tern;
use serde_json::Value;
use std::alloc::Global;

// The digit of a place.
fn digit_of(place: Tern) -> &'static str
    ensures { result.now ≡ digit free_mark place ∷ [] }
{
    match place {
        Tern::Zero => "0",
        Tern::One => "1",
        Tern::Unknown => "-",
    }
}

fn digits(alloc: Global, places: &[Tern]) -> Result<String, NoMemory>
    ensures { IfOk result (λ text. string_bytes text ≡ map (digit free_mark) places.now) }
{
    let mut text = String::new(alloc);
    for place in places {
        text.push_str(digit_of(*place))?;
    }
    Ok(text)
}

// Sets the member of a port to its own places.
fn put_port(
    alloc: Global,
    object: &mut Object,
    name: &[u8],
    places: &[Tern],
) -> Result<(), NoMemory>
    ensures { OnOk result (members object.new
        ≡ put (name_text name.now) (places_data places.now) (members object.old)) }
{
    let text = digits(alloc, places)?;
    object.put_named(name, Value::from(text))
}

// Sets the members of ports to the places that stand behind one another in `places`.
fn put_ports(
    alloc: Global,
    object: &mut Object,
    ports: &[PortBits],
    places: &[Tern],
) -> Result<(), NoMemory>
    ensures { OnOk result (members object.new ≡ with_values ports.now places.now (members object.old)) }
{
    let mut rest = places;
    for port in ports {
        let width = usize::from(port.width).min(rest.len());
        let (own, behind) = rest.split_at(width);
        put_port(alloc, object, port.name.as_slice(), own)?;
        rest = behind;
    }
    Ok(())
}

// An object with the value of each port.
fn values(alloc: Global, ports: &[PortBits], places: &[Tern]) -> Result<Value, NoMemory>
    ensures { IfOk result (λ value. view value ≡ values_data ports.now places.now) }
{
    let mut object = Object::new(alloc);
    put_ports(alloc, &mut object, ports, places)?;
    Ok(object.finish())
}

// A state's object.
pub(crate) fn state_value(
    alloc: Global,
    registers: &[PortBits],
    state: &Bits,
) -> Result<Value, NoMemory>
    ensures { IfOk result
        (λ value. view value ≡ values_data registers.now (map known state.now)) }
{
    let places = known_cube(alloc, state.as_slice())?;
    values(alloc, registers, places.as_slice())
}

// An array with an object for each cycle.
pub(crate) fn pattern_value(
    alloc: Global,
    ports: &[PortBits],
    cycles: &[Cube],
) -> Result<Value, NoMemory>
    ensures { IfOk result (λ value. view value ≡ pattern_data ports.now cycles.now) }
{
    let mut objects = Vec::new(alloc);
    for places in cycles {
        objects.push(values(alloc, ports, places.as_slice())?)?;
    }
    Ok(Value::from(objects))
}

// A word as the pattern without free bits.
pub(crate) fn word_value(
    alloc: Global,
    ports: &[PortBits],
    word: &Sequence,
) -> Result<Value, NoMemory>
    ensures { IfOk result (λ value. view value ≡ pattern_data ports.now (known_pattern word.now)) }
{
    let pattern = known_pattern(alloc, word.as_slice())?;
    pattern_value(alloc, ports, pattern.as_slice())
}
