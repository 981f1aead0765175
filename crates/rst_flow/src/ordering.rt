// The units in their order.

ghost use Rattle.std.specs.Prelude.{◌≡◌, ℕ, ◌<◌, Some, None, IsSome, IfOk, length, map, slice_index_or};
ghost use Rattle.rst_flow.specs.Edges.{picks};
ghost use Rattle.rst_flow.specs.Tables.{IsChoice};

use rst_net::Driver;
use std::alloc::{AllocError, Global};

/// Each unit as one that is still to be taken.
fn untaken(alloc: Global, units: Vec<Driver>) -> Result<Vec<Option<Driver>>, AllocError>
    ensures { IfOk result (λ left. left.items ≡ map Some units.items) }
{
    units.into_iter().map(|unit| Some(unit)).collect(alloc)
}

/// Takes one of the units that are left.
fn take_unit(left: &mut Vec<Option<Driver>>, place: usize) -> Option<Driver>
    requires { place < length left.old.items }
    ensures taken { result ≡ slice_index_or left.old.items place None }
    ensures others { (v : ℕ) → (v ≡ place → ⊥) → slice_index_or left.new.items v None ≡ slice_index_or left.old.items v None }
    ensures same_length { length left.new.items ≡ length left.old.items }
{
    left[place].take()
}

/// The units with these numbers, each of which is there.
fn take_all(
    alloc: Global,
    left: &mut Vec<Option<Driver>>,
    order: &[usize],
) -> Result<Vec<Driver>, AllocError>
    requires choice { IsChoice (length left.old.items) order.now }
    requires there { (v : ℕ) → v < length left.old.items → IsSome (slice_index_or left.old.items v None) }
    ensures { IfOk result (λ made. map Some made.items ≡ map (λ v. slice_index_or left.old.items v None) order.now) }
{
    let mut made = Vec::with_capacity(alloc, order.len())?;
    for number in order {
        match take_unit(left, *number) {
            Some(unit) => made.push(unit)?,
            None => unreachable!(),
        }
    }
    Ok(made)
}

/// The units in an order of all of them.
pub fn ordered(
    alloc: Global,
    units: Vec<Driver>,
    order: &[usize],
) -> Result<Vec<Driver>, AllocError>
    requires { IsChoice (length units.items) order.now }
    ensures { IfOk result (λ made. made.items ≡ picks units.items order.now) }
{
    let mut left = untaken(alloc, units)?;
    take_all(alloc, &mut left, order)
}
