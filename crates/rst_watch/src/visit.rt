// Visits of the clauses that watch a literal which has become false.
ghost use Rattle.std.specs.Prelude.{◌≡◌, ◌≢◌, ◌+◌, ◌<◌, ◌≤◌, ◌^◌, ℕ, ℤ, [], length, IfOk, OnOk, MatchOption, slice_index_or};
ghost use Rattle.std.specs.List.{Contains};
ghost use Rattle.rst_clause.specs.Literals.{opposite, IsLiteral};
ghost use Rattle.rst_clause.specs.Trails.{Grows};
ghost use Rattle.rst_clause.specs.Queue.{IsFalseAt};
ghost use Rattle.rst_watch.specs.Looks.{IsOther, AreFalseBut};
ghost use Rattle.rst_watch.specs.Watching.{IsWatching, IsSame, IsOf, Visits, HoldWhereWatched, watch_of};

use crate::look::another;
use crate::numbers::place_of;
use crate::state::{State, Watch, note};
use rst_clause::Lit;
use rst_outside::NoMemory;

/// What a visit of a clause does.
#[derive(Clone, Copy)]
pub(crate) enum Visited {
    /// The clause stays in the literal's list.
    Kept,
    /// Another literal is watched in its place.
    Moved,
    /// The clause is false.
    False,
}

// Watches `new` in the place of `lit`.
fn watch(s: &mut State, i: usize, lit: Lit, other: Lit, new: Lit) -> Result<Visited, NoMemory>
    requires watching { IsWatching s.old }
    requires place { i < length s.old.store }
    requires pair { IsOf (watch_of s.old i) lit other }
    requires is_false { Contains s.old.trail.lits (opposite lit) }
    requires other { IsOther s.old.trail.lits (slice_index_or s.old.store i []) other new }
    requires differ { other ≢ lit }
    ensures watching { IsWatching s.new }
    ensures same { IsSame s.old s.new }
    ensures trail { s.new.trail ≡ s.old.trail }
    ensures visits { IfOk result (λ v. Visits s.old s.new i lit v) }
{
    note(&mut s.lists, new, i)?;
    s.pairs[i] = Watch {
        first: new,
        second: other,
    };
    Ok(Visited::Moved)
}

// All literals of the clause are false but `other`, which doesn't stand: it is implied, or the
// clause is false.
fn imply(s: &mut State, i: usize, lit: Lit, other: Lit) -> Result<Visited, NoMemory>
    requires watching { IsWatching s.old }
    requires place { i < length s.old.store }
    requires pair { IsOf (watch_of s.old i) lit other }
    requires in_range { IsLiteral s.old.trail.vars other }
    requires few { s.old.trail.vars < 2 ^ 31 }
    requires is_false { AreFalseBut s.old.trail.lits (slice_index_or s.old.store i []) other }
    ensures watching { IsWatching s.new }
    ensures same { IsSame s.old s.new }
    ensures grows { Grows s.old.store s.old.trail s.new.trail }
    ensures visits { IfOk result (λ v. Visits s.old s.new i lit v) }
{
    if s.trail.has(other.opposite()) {
        return Ok(Visited::False);
    }
    s.trail.push(other, i)?;
    Ok(Visited::Kept)
}

// Visits the clause with the number, whose watched literals these are.
fn visit_pair(s: &mut State, i: usize, lit: Lit, other: Lit) -> Result<Visited, NoMemory>
    requires watching { IsWatching s.old }
    requires place { i < length s.old.store }
    requires pair { IsOf (watch_of s.old i) lit other }
    requires is_false { Contains s.old.trail.lits (opposite lit) }
    requires differ { other ≢ lit }
    ensures watching { IsWatching s.new }
    ensures same { IsSame s.old s.new }
    ensures grows { Grows s.old.store s.old.trail s.new.trail }
    ensures visits { IfOk result (λ v. Visits s.old s.new i lit v) }
{
    if s.trail.has(other) {
        return Ok(Visited::Kept);
    }
    match another(&s.trail, s.store.get(i), s.done, other) {
        Some(new) => watch(s, i, lit, other, new),
        None => imply(s, i, lit, other),
    }
}

// Visits the clause with the number. It stays where there is none, or it watches others, or none
// as it holds for good.
fn visit_number(s: &mut State, i: usize, lit: Lit) -> Result<Visited, NoMemory>
    requires watching { IsWatching s.old }
    requires is_false { Contains s.old.trail.lits (opposite lit) }
    ensures watching { IsWatching s.new }
    ensures same { IsSame s.old s.new }
    ensures grows { Grows s.old.store s.old.trail s.new.trail }
    ensures visits { IfOk result (λ v. Visits s.old s.new i lit v) }
{
    if i >= s.pairs.len() {
        return Ok(Visited::Kept);
    }
    let pair = s.pairs[i];
    if pair.first.is(pair.second) {
        return Ok(Visited::Kept);
    }
    if pair.first.is(lit) {
        return visit_pair(s, i, lit, pair.second);
    }
    if pair.second.is(lit) {
        return visit_pair(s, i, lit, pair.first);
    }
    Ok(Visited::Kept)
}

/// Visits the clauses that watch a literal which has become false, until one is false.
pub(crate) fn visit(s: &mut State, lit: Lit) -> Result<Option<usize>, NoMemory>
    requires watching { IsWatching s.old }
    requires is_false { Contains s.old.trail.lits (opposite lit) }
    requires in_range { IsLiteral s.old.trail.vars lit }
    ensures watching { IsWatching s.new }
    ensures same { IsSame s.old s.new }
    ensures grows { Grows s.old.store s.old.trail s.new.trail }
    ensures found { IfOk result (λ found. MatchOption found (HoldWhereWatched s.new lit) (IsFalseAt s.new.store s.new.trail.lits)) }
{
    let place = place_of(lit);
    let mut j = 0usize;
    'visiting: while j < s.lists[place].len() {
        let i = s.lists[place].get(j) as usize;
        match visit_number(s, i, lit)? {
            Visited::Kept => j += 1,
            Visited::Moved => s.lists[place].swap_remove(j),
            Visited::False => return Ok(Some(i)),
        }
    }
    Ok(None)
}
