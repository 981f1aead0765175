// The way back up the tree of decisions, from a part that is closed.
ghost use Rattle.std.specs.Prelude.{◌≡◌, ◌+◌, ◌-◌, ◌<◌, ◌≤◌, ℕ, suc, Bool, true, false, [], ◌∷◌, length, IfOk, IfSome, IfNone, OnOk, MatchOption};
ghost use Rattle.rst_clause.specs.Trails.{IsComplete};
ghost use Rattle.rst_solve.specs.Choices.{AllKnownTo};
ghost use Rattle.rst_solve.specs.Tree.{HasFalse};
ghost use Rattle.rst_solve.specs.Records.{IsOpenBelow, IsClosedBelow, IsLifted};

use crate::levels::Level;
use crate::tree::{Posed, Tree, decide, spread};
use rst_outside::NoMemory;
use rst_value::Tern;

// Takes the deepest decision back, if there is one.
fn lift(q: &Posed, t: &mut Tree) -> Option<Level>
    requires closed { IsClosedBelow q.now.free q.now.vars q.now.all t.old }
    ensures lifted { IfSome result (λ l. IsLifted q.now.free q.now.vars q.now.all t.new l) }
    ensures shorter { MatchOption result ((t.old.levels ≡ []) × (t.new ≡ t.old)) (λ l. t.old.levels ≡ l ∷ t.new.levels) }
    ensures paths { t.new.paths ≡ t.old.paths }
{
    let level = t.levels.pop()?;
    t.trail.truncate(level.floor);
    t.path[level.bit as usize] = Tern::Unknown;
    Some(level)
}

// Both values of the bit are closed, and so is what lies above: notes the line that denies the
// decisions without it.
fn close_both(q: &Posed, t: &mut Tree, level: Level) -> Result<(), NoMemory>
    requires lifted { IsLifted q.now.free q.now.vars q.now.all t.old level }
    requires second { level.value ≡ true }
    ensures closed { OnOk result (IsClosedBelow q.now.free q.now.vars q.now.all t.new) }
    ensures levels { t.new.levels ≡ t.old.levels }
    ensures paths { t.new.paths ≡ t.old.paths }
{
    let line = t.levels.denied(q.alloc)?;
    t.log.push(line)?;
    Ok(())
}

/// Takes decisions back up to one whose second value is open. That one, or None where all is
/// closed.
pub fn climb(q: &Posed, t: &mut Tree) -> Result<Option<Level>, NoMemory>
    requires closed { IsClosedBelow q.now.free q.now.vars q.now.all t.old }
    ensures lifted { IfOk result (λ found. IfSome found (λ l. IsLifted q.now.free q.now.vars q.now.all t.new l × (l.value ≡ false))) }
    ensures closed { IfOk result (λ found. IfNone found (IsClosedBelow q.now.free q.now.vars q.now.all t.new × (t.new.levels ≡ []))) }
    ensures paths { t.new.paths ≡ t.old.paths }
{
    for _ in 0..t.levels.len() {
        let Some(level) = lift(q, t) else {
            return Ok(None);
        };
        if !level.value {
            return Ok(Some(level));
        }
        close_both(q, t, level)?;
    }
    Ok(None)
}

/// Decides the bit's second value, and propagates. Whether no clause is false.
pub fn turn(q: &Posed, t: &mut Tree, level: Level) -> Result<bool, NoMemory>
    requires lifted { IsLifted q.now.free q.now.vars q.now.all t.old level }
    requires first { level.value ≡ false }
    ensures below { OnOk result (IsOpenBelow q.now.free q.now.vars q.now.all t.new) }
    ensures complete { IfOk result (λ yes. yes ≡ true → IsComplete t.new.trail.lits q.now.all) }
    ensures conflict { IfOk result (λ yes. yes ≡ false → HasFalse q.now.all t.new.trail.lits) }
    ensures known { OnOk result (AllKnownTo t.new.trail.lits (suc level.bit)) }
    ensures bit { level.bit < q.now.free }
    ensures paths { t.new.paths ≡ t.old.paths }
{
    let floor = t.trail.len();
    decide(q, t, level.bit, true)?;
    let complete = spread(q, t, floor, q.all.len())?;
    Ok(complete)
}
