// A look at one clause alone.
ghost use Rattle.std.specs.Prelude.{◌≡◌, ◌<◌, ◌^◌, true, false, [], length, IfOk, slice_index_or};
ghost use Rattle.rst_clause.specs.Trails.{Grows, IsQuiet};
ghost use Rattle.rst_clause.specs.Queue.{IsFalseAt};
ghost use Rattle.rst_watch.specs.Watching.{IsWatching, IsSame};

use crate::state::State;
use rst_clause::{Status, status_of};
use rst_outside::NoMemory;

/// Looks at the clause with the number, if there is one, and adds what it implies. Whether it is
/// false.
pub(crate) fn apply(s: &mut State, number: usize) -> Result<bool, NoMemory>
    requires watching { IsWatching s.old }
    ensures watching { IsWatching s.new }
    ensures same { IsSame s.old s.new }
    ensures grows { Grows s.old.store s.old.trail s.new.trail }
    ensures is_false { IfOk result (λ yes. yes ≡ true → IsFalseAt s.new.store s.new.trail.lits number) }
    ensures quiet { IfOk result (λ yes. yes ≡ false → number < length s.new.store → IsQuiet s.new.trail.lits (slice_index_or s.new.store number [])) }
{
    if number >= s.store.len() {
        return Ok(false);
    }
    match status_of(&s.trail, s.store.get(number)) {
        Status::False => Ok(true),
        Status::Unit(lit) => {
            s.trail.push(lit, number)?;
            Ok(false)
        }
        Status::Quiet => Ok(false),
    }
}
