// The paths of a search as entries of a journal.
ghost use Rattle.std.specs.Prelude.{◌≡◌, IfOk};
ghost use Rattle.rst_landing.specs.Work.{land_conflicts};

use rst_gate::Cube;
use rst_outside::NoMemory;
use rst_pair::{Entry, Journal, Kind};
use std::alloc::Global;

// A conflict of landing for each path, in order.
pub(crate) fn conflicts(alloc: Global, paths: Vec<Cube>) -> Result<Journal, NoMemory>
    ensures { IfOk result (λ journal. journal ≡ land_conflicts paths.items) }
{
    let mut journal = Journal::new(alloc);
    for path in paths {
        journal.push(Entry::Conflict(Kind::Land, path))?;
    }
    Ok(journal)
}
