// Refining the relation, question by question.

ghost use Rattle.std.specs.Prelude.{◌≡◌, ◌≤◌, [], length, IfOk};
ghost use Rattle.rst_pair.specs.declared.query.Query.TheVariants.{Split};
ghost use Rattle.rst_pose.specs.Posing.{IsSmall};
ghost use Rattle.rst_pose.specs.Works.{blocked_of};
ghost use Rattle.rst_pairinv.specs.Blocking.{AreBlocked};
ghost use Rattle.rst_pairinv.specs.Refining.{AreMarked, Refutes, IsExact, KeepsWork, front_with};
ghost use Rattle.rst_pairinv.specs.Answers.{blocked_in, journal_in, IsSpent, IsDone, WithLog};

use crate::block::Refining;
use crate::find::{Finder, round};
use crate::states::are_sides;
use rst_clause::Log;
use rst_gate::Bits;
use rst_outside::NoMemory;
use rst_pair::{Front, Hop, Journal, Pair};
use std::alloc::Global;

/// What refining the relation of a pair answers.
#[derive(Drop)]
pub enum Refined {
    /// The pairs that behave the same are those in no blocked cube: the log refutes that one of
    /// them splits.
    Done {
        blocked: Vec<Hop>,
        log: Log,
        journal: Journal,
    },
    /// As many entries as were allowed.
    Spent {
        blocked: Vec<Hop>,
        journal: Journal,
    },
}

// Every pair that agrees on the marked registers is related, and no work is done.
fn start(alloc: Global, equal: &Bits) -> Result<Refining, NoMemory>
    ensures front { IfOk result (λ it. it.front ≡ front_with equal.now []) }
    ensures journal { IfOk result (λ it. it.journal ≡ []) }
{
    let equal = Bits::from_slice(alloc, equal.as_slice())?;
    let front = Front {
        equal,
        blocked: Vec::new(alloc),
        freed: Vec::new(alloc),
    };
    let journal = Journal::new(alloc);
    Ok(Refining { front, journal })
}

fn done(so_far: Refining, log: Log) -> Refined
    ensures blocked { blocked_in result ≡ so_far.front.blocked }
    ensures journal { journal_in result ≡ so_far.journal }
    ensures log { WithLog result (λ l. l ≡ log) }
    ensures done { IsDone result }
{
    let front = so_far.front;
    let journal = so_far.journal;
    let blocked = front.blocked;
    Refined::Done {
        blocked,
        log,
        journal,
    }
}

fn spent(so_far: Refining) -> Refined
    ensures blocked { blocked_in result ≡ so_far.front.blocked }
    ensures journal { journal_in result ≡ so_far.journal }
    ensures spent { IsSpent result }
{
    let front = so_far.front;
    let journal = so_far.journal;
    let blocked = front.blocked;
    Refined::Spent { blocked, journal }
}

/// Refines the relation of a pair of designs: blocks cubes of pairs of states until those that are
/// left behave the same, with at most `left` units of work.
///
/// Both sides have at most 16,384 gates, 512 registers, 256 inputs and 256 outputs, `equal` has a bit
/// for each register of the left side, and `left` is at most 100,000. Registers are marked only where
/// both sides are the same gates, and the marked ones are closed, as `closed_equal` answers them.
///
/// Each blocked hop is right, passes and is widest behind the hops before it (`hops`). The journal
/// has an entry for each hop and for each path that was found to have no splitting pair, and keeps
/// the work of a search behind candidates (`work`). Done has a log that refutes that a related pair
/// splits (`refutes`), and then the related pairs are exactly those that agree on the marked registers
/// and behave the same (`exact`). Spent has exactly `left` entries (`spent`). NoMemory where there is
/// no memory for the clauses, the search or the hops.
pub fn refine(alloc: Global, pair: &Pair, equal: &Bits, left: u32) -> Result<Refined, NoMemory>
    requires small_left { IsSmall pair.now.left }
    requires small_right { IsSmall pair.now.right }
    requires marked { AreMarked pair.now equal.now }
    requires left { left ≤ 100000 }
    ensures hops { IfOk result (λ r. AreBlocked pair.now (blocked_in r)) }
    ensures work { IfOk result (λ r. KeepsWork pair.now equal.now (journal_in r)) }
    ensures blocked { IfOk result (λ r. blocked_of (journal_in r) ≡ blocked_in r) }
    ensures few { IfOk result (λ r. length (journal_in r) ≤ left) }
    ensures spent { IfOk result (λ r. IsSpent r → length (journal_in r) ≡ left) }
    ensures refutes { IfOk result (λ r. WithLog r (Refutes pair.now (front_with equal.now (blocked_in r)) Split)) }
    ensures exact { IfOk result (λ r. IsDone r → IsExact pair.now (front_with equal.now (blocked_in r))) }
{
    are_sides(pair);
    let mut so_far = start(alloc, equal)?;
    let mut finder = Finder::new(alloc, pair, equal.as_slice())?;
    'turns: loop {
        if so_far.journal.len() >= left as usize {
            return Ok(spent(so_far));
        }
        if let Some(log) = round(alloc, pair, &mut so_far, &mut finder, left)? {
            return Ok(done(so_far, log));
        }
    }
}
