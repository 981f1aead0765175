// Clauses, what stands, and which literals are watched.
ghost use Rattle.std.specs.Prelude.{◌≡◌, ◌≢◌, ◌+◌, ◌*◌, ◌<◌, ◌≤◌, ◌^◌, ℕ, ℤ, [], ◌∷◌, ◌++◌, length, replicate, set, IfOk, OnOk, OnErr, slice_index_or, unsigned_abs};
ghost use Rattle.rst_clause.specs.Trails.{place_of};
ghost use Rattle.rst_watch.specs.Watching.{IsWatching, IsSame, IsNoted};

use crate::floors::Floors;
use crate::numbers::{Numbers, place_of};
use rst_clause::{ClauseStore, Lit, Trail};
use rst_outside::NoMemory;
use std::alloc::Global;

/// The two watched literals of a clause.
#[derive(Clone, Copy)]
pub(crate) struct Watch {
    pub first: Lit,
    pub second: Lit,
}

/// The clauses, their watched literals and, for each literal, the numbers of clauses that watch
/// it; what stands, and how much of it was propagated; the levels.
#[derive(Drop)]
pub(crate) struct State {
    pub store: ClauseStore,
    pub trail: Trail,
    pub pairs: Vec<Watch>,
    pub lists: Vec<Numbers>,
    pub done: usize,
    pub floors: Floors,
}

// So many empty lists.
fn empty_lists(alloc: Global, count: usize) -> Result<Vec<Numbers>, NoMemory>
    ensures { IfOk result (λ lists. length lists.items ≡ count) }
{
    let mut lists = Vec::new(alloc);
    for _ in 0..count {
        lists.push(Numbers::new(alloc))?;
    }
    Ok(lists)
}

/// No clause, and nothing stands.
pub(crate) fn start(alloc: Global, vars: u32) -> Result<State, NoMemory>
    requires { vars < 2 ^ 31 }
    ensures watching { IfOk result (λ s. IsWatching s) }
    ensures vars { IfOk result (λ s. s.trail.vars ≡ vars) }
    ensures lits { IfOk result (λ s. s.trail.lits ≡ []) }
    ensures store { IfOk result (λ s. s.store ≡ []) }
    ensures floors { IfOk result (λ s. s.floors ≡ []) }
{
    let trail = Trail::new(alloc, vars)?;
    let lists = empty_lists(alloc, 2 * (vars as usize) + 2)?;
    Ok(State {
        store: ClauseStore::new(alloc),
        trail,
        pairs: Vec::new(alloc),
        lists,
        done: 0,
        floors: Floors::new(alloc),
    })
}

/// Notes the number in the literal's list.
pub(crate) fn note(lists: &mut Vec<Numbers>, lit: Lit, number: usize) -> Result<(), NoMemory>
    requires place { place_of lit < length lists.old.items }
    ensures ok { OnOk result (lists.new.items ≡ set lists.old.items (place_of lit) (slice_index_or lists.old.items (place_of lit) [] ++ number ∷ [])) }
    ensures err { OnErr result (lists.new.items ≡ lists.old.items) }
{
    if number > 4_294_967_295 {
        return Err(NoMemory);
    }
    lists[place_of(lit)].push(number as u32)?;
    Ok(())
}
