// Rows of values, a line for each clock cycle.
ghost use Rattle.std.specs.Prelude.{◌≡◌, ◌++◌, map, OnOk, IfOk};
ghost use Rattle.rst_report.specs.Rows.{digit, value_text, values_text, cycle_row, cycle_rows, known_rows};

use rst_gate::Cube;
use rst_outside::{Bytes, NoMemory, PortBits};
use rst_text::Text;
use rst_value::Tern;
use std::alloc::Global;

/// The digit of a place: `0`, `1`, or the mark of places that aren't known.
pub fn digit(mark: u8, place: Tern) -> u8
    ensures { result ≡ digit mark place }
{
    match place {
        Tern::Zero => b'0',
        Tern::One => b'1',
        Tern::Unknown => mark,
    }
}

fn put_places(text: &mut Text, mark: u8, places: &[Tern]) -> Result<(), NoMemory>
    ensures { OnOk result (text.new ≡ text.old ++ map (digit mark) places.now) }
{
    for place in places {
        text.put_byte(digit(mark, *place))?;
    }
    Ok(())
}

fn put_value(text: &mut Text, mark: u8, name: &[u8], places: &[Tern]) -> Result<(), NoMemory>
    ensures { OnOk result (text.new ≡ text.old ++ value_text mark name.now places.now) }
{
    text.put(b" ")?;
    text.put(name)?;
    text.put(b"=")?;
    put_places(text, mark, places)?;
    Ok(())
}

// The ports with the places that stand behind one another in `places`.
pub(crate) fn put_values(
    text: &mut Text,
    mark: u8,
    ports: &[PortBits],
    places: &[Tern],
) -> Result<(), NoMemory>
    ensures { OnOk result (text.new ≡ text.old ++ values_text mark ports.now places.now) }
{
    let mut rest = places;
    for port in ports {
        let width = usize::from(port.width).min(rest.len());
        let (own, behind) = rest.split_at(width);
        put_value(text, mark, port.name.as_slice(), own)?;
        rest = behind;
    }
    Ok(())
}

fn put_row(
    text: &mut Text,
    mark: u8,
    ports: &[PortBits],
    number: u64,
    places: &[Tern],
) -> Result<(), NoMemory>
    ensures { OnOk result (text.new ≡ text.old ++ cycle_row mark ports.now number places.now) }
{
    text.put_counted(b"cycle", number)?;
    put_values(text, mark, ports, places)?;
    text.end_line()?;
    Ok(())
}

// A row a cycle, counted from 0.
pub(crate) fn put_rows(
    text: &mut Text,
    mark: u8,
    ports: &[PortBits],
    cycles: &[Cube],
) -> Result<(), NoMemory>
    ensures { OnOk result (text.new ≡ text.old ++ cycle_rows mark ports.now 0 cycles.now) }
{
    for (number, places) in cycles.iter().enumerate() {
        put_row(text, mark, ports, number as u64, places.as_slice())?;
    }
    Ok(())
}

/// The registers in three values, cycle by cycle: a line `cycle k` with ` NAME=BITS` for each register
/// in the order of the design, the most significant bit to the left, and `x` for a bit that isn't known.
///
/// The first of the states is that of power-up, cycle 0. Each state has a place for each register bit.
/// It is refused for want of memory alone.
pub fn known_rows(alloc: Global, registers: &[PortBits], states: &[Cube]) -> Result<Bytes, NoMemory>
    ensures { IfOk result (λ bytes. bytes ≡ known_rows registers.now states.now) }
{
    let mut text = Text::new(alloc);
    put_rows(&mut text, b'x', registers, states)?;
    text.finish()
}
