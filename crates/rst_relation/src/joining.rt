// Journals, one behind the other.
ghost use Rattle.std.specs.Prelude.{◌≡◌, ◌++◌, IfOk, OnOk};

use rst_gate::{Bits, Cube};
use rst_outside::NoMemory;
use rst_pair::{Entry, Hop, Journal};
use std::alloc::Global;

fn copy_of(alloc: Global, hop: &Hop) -> Result<Hop, NoMemory>
    ensures { IfOk result (λ copy. copy ≡ hop.now) }
{
    let cube = Cube::from_slice(alloc, hop.cube.as_slice())?;
    let input = Bits::from_slice(alloc, hop.input.as_slice())?;
    let next = hop.next;
    Ok(Hop { cube, input, next })
}

// One entry once more.
fn entry_of(alloc: Global, entry: &Entry) -> Result<Entry, NoMemory>
    ensures { IfOk result (λ copy. copy ≡ entry.now) }
{
    match entry {
        Entry::Candidate(i, level) => Ok(Entry::Candidate(*i, *level)),
        Entry::Conflict(kind, path) => {
            let path = Cube::from_slice(alloc, path.as_slice())?;
            Ok(Entry::Conflict(*kind, path))
        }
        Entry::Blocked(hop, both) => {
            let both = Bits::from_slice(alloc, both.as_slice())?;
            let hop = copy_of(alloc, hop)?;
            Ok(Entry::Blocked(hop, both))
        }
        Entry::Freed(hop, both) => {
            let both = Bits::from_slice(alloc, both.as_slice())?;
            let hop = copy_of(alloc, hop)?;
            Ok(Entry::Freed(hop, both))
        }
        Entry::Built(a, b) => {
            let a = Bits::from_slice(alloc, a.as_slice())?;
            let b = Bits::from_slice(alloc, b.as_slice())?;
            Ok(Entry::Built(a, b))
        }
    }
}

// These entries behind those of the journal.
pub(crate) fn join(alloc: Global, journal: &mut Journal, more: &[Entry]) -> Result<(), NoMemory>
    ensures { OnOk result (journal.new ≡ journal.old ++ more.now) }
{
    for entry in more {
        let copy = entry_of(alloc, entry)?;
        journal.push(copy)?;
    }
    Ok(())
}
