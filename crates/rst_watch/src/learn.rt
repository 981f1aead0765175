// One more clause.
ghost use Rattle.std.specs.Prelude.{◌≡◌, ◌≢◌, ◌+◌, ◌<◌, ◌≤◌, ◌^◌, ℕ, ℤ, true, false, [], ◌∷◌, ◌++◌, length, IfOk, OnOk, OnErr, slice_index_or};
ghost use Rattle.std.specs.List.{Contains};
ghost use Rattle.rst_clause.specs.Literals.{opposite, IsLiteral, AreLiterals};
ghost use Rattle.rst_clause.specs.Trails.{Grows, AllFalse};
ghost use Rattle.rst_watch.specs.Looks.{HasTrue, NotFalse, AreFalseBut};
ghost use Rattle.rst_watch.specs.Watching.{IsWatching, IsSame};
ghost use Rattle.rst_watch.specs.Choices.{Chooses, Learns};
ghost use Rattle.rst_watch.specs.declared.learn.Choice.TheVariants.{Unit, Two};

use crate::look::{Seen, look};
use crate::state::{State, Watch, note};
use rst_clause::{ClauseStore, Lit, Trail};
use rst_outside::NoMemory;

/// What a clause is on a trail.
#[derive(Clone, Copy)]
pub(crate) enum Choice {
    /// All its literals are false.
    False,
    /// It implies this literal, which is open.
    Unit(Lit),
    /// A literal of it stands; this is one of its literals.
    True(Lit),
    /// Two different literals to watch.
    Two(Lit, Lit),
}

// What the clause is, where all its literals but this one are false and it doesn't stand.
fn last(trail: &Trail, clause: &[Lit], lit: Lit) -> Choice
    requires has { Contains clause.now lit }
    requires in_range { AreLiterals trail.now.vars clause.now }
    requires few { trail.now.vars < 2 ^ 31 }
    requires is_false { AreFalseBut trail.now.lits clause.now lit }
    ensures { Chooses trail.now.lits clause.now result }
{
    if trail.has(lit.opposite()) {
        Choice::False
    } else {
        Choice::Unit(lit)
    }
}

// What the clause is on the trail.
fn choose(trail: &Trail, clause: &[Lit]) -> Choice
    requires in_range { AreLiterals trail.now.vars clause.now }
    requires few { trail.now.vars < 2 ^ 31 }
    ensures { Chooses trail.now.lits clause.now result }
{
    if clause.is_empty() {
        return Choice::False;
    }
    let begin = clause[0];
    match look(trail, clause, begin) {
        Seen::True => Choice::True(begin),
        Seen::Last => last(trail, clause, begin),
        Seen::Open(first) => match look(trail, clause, first) {
            Seen::True => Choice::True(begin),
            Seen::Last => last(trail, clause, first),
            Seen::Open(second) => Choice::Two(first, second),
        },
    }
}

// One more clause that watches these literals; all as before where there is no memory for it.
fn add(
    store: &mut ClauseStore,
    pairs: &mut Vec<Watch>,
    clause: &[Lit],
    pair: Watch,
) -> Result<(), NoMemory>
    ensures store { OnOk result (store.new ≡ store.old ++ clause.now ∷ []) }
    ensures pairs { OnOk result (pairs.new.items ≡ pairs.old.items ++ pair ∷ []) }
    ensures store_err { OnErr result (store.new ≡ store.old) }
    ensures pairs_err { OnErr result (pairs.new.items ≡ pairs.old.items) }
{
    pairs.push(pair)?;
    if store.push(clause).is_err() {
        let _pair = pairs.pop();
        return Err(NoMemory);
    }
    Ok(())
}

// Adds a clause that watches two literals which aren't false.
fn add_watched(s: &mut State, clause: &[Lit], first: Lit, second: Lit) -> Result<(), NoMemory>
    requires watching { IsWatching s.old }
    requires in_range { AreLiterals s.old.trail.vars clause.now }
    requires root { s.old.floors ≡ [] }
    requires two { Chooses s.old.trail.lits clause.now (Two first second) }
    ensures watching { IsWatching s.new }
    ensures store { OnOk result (s.new.store ≡ s.old.store ++ clause.now ∷ []) }
    ensures trail { s.new.trail ≡ s.old.trail }
    ensures floors { s.new.floors ≡ [] }
{
    let number = s.store.len();
    note(&mut s.lists, first, number)?;
    note(&mut s.lists, second, number)?;
    let pair = Watch { first, second };
    add(&mut s.store, &mut s.pairs, clause, pair)?;
    Ok(())
}

// Adds a clause of which a literal stands, where no level is open.
fn add_true(s: &mut State, clause: &[Lit], lit: Lit) -> Result<(), NoMemory>
    requires watching { IsWatching s.old }
    requires in_range { AreLiterals s.old.trail.vars clause.now }
    requires root { s.old.floors ≡ [] }
    requires has { Contains clause.now lit }
    requires is_true { HasTrue s.old.trail.lits clause.now }
    ensures watching { IsWatching s.new }
    ensures store { OnOk result (s.new.store ≡ s.old.store ++ clause.now ∷ []) }
    ensures trail { s.new.trail ≡ s.old.trail }
    ensures floors { s.new.floors ≡ [] }
{
    let pair = Watch {
        first: lit,
        second: lit,
    };
    add(&mut s.store, &mut s.pairs, clause, pair)?;
    Ok(())
}

// A clause that implies an open literal, where no level is open.
fn add_unit(s: &mut State, clause: &[Lit], lit: Lit) -> Result<(), NoMemory>
    requires watching { IsWatching s.old }
    requires in_range { AreLiterals s.old.trail.vars clause.now }
    requires root { s.old.floors ≡ [] }
    requires unit { Chooses s.old.trail.lits clause.now (Unit lit) }
    ensures watching { IsWatching s.new }
    ensures store { OnOk result (s.new.store ≡ s.old.store ++ clause.now ∷ []) }
    ensures grows { OnOk result (Grows s.new.store s.old.trail s.new.trail) }
    ensures vars { s.new.trail.vars ≡ s.old.trail.vars }
    ensures floors { s.new.floors ≡ [] }
{
    let number = s.store.len();
    s.trail.push(lit, number)?;
    add_true(s, clause, lit)?;
    Ok(())
}

/// One more clause, where no level is open, unless it is false. Whether it is.
pub(crate) fn learn(s: &mut State, clause: &[Lit]) -> Result<bool, NoMemory>
    requires watching { IsWatching s.old }
    requires in_range { AreLiterals s.old.trail.vars clause.now }
    requires root { s.old.floors ≡ [] }
    ensures watching { IsWatching s.new }
    ensures learns { IfOk result (λ is_false. Learns s.old.store s.new.store s.old.trail s.new.trail clause.now is_false) }
    ensures vars { s.new.trail.vars ≡ s.old.trail.vars }
    ensures floors { s.new.floors ≡ [] }
{
    match choose(&s.trail, clause) {
        Choice::False => return Ok(true),
        Choice::Unit(lit) => add_unit(s, clause, lit)?,
        Choice::True(lit) => add_true(s, clause, lit)?,
        Choice::Two(first, second) => add_watched(s, clause, first, second)?,
    }
    Ok(false)
}
