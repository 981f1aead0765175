// Numbers of items.

ghost use Rattle.std.specs.Prelude.{◌≡◌, ◌+◌, IfOk};

use rst_outside::NoMemory;

/// The number of the item at a place, from 1. No memory holds a module with 2^32 items.
pub fn number_of(place: usize) -> Result<u32, NoMemory>
    ensures { IfOk result (λ number. number ≡ place + 1) }
{
    if place < 4_294_967_295 {
        Ok(place as u32 + 1)
    } else {
        Err(NoMemory)
    }
}
