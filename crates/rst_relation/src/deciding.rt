// The decision of a pattern: the relation is refined, then it is asked where the pattern lands.
ghost use Rattle.std.specs.Prelude.{◌≡◌, ◌<◌, ◌≤◌, length, IfOk};
ghost use Rattle.rst_gate.specs.GateMachines.{machine_of};
ghost use Rattle.rst_gate.specs.Patterns.{IsPattern, PatternSigns};
ghost use Rattle.rst_pose.specs.Posing.{IsSmall};
ghost use Rattle.rst_relation.specs.Decisions.{journal_in, IsSigned, IsRefuted, IsUnknown, HasWork, HasHops, HasSplitLog, HasLandLog, HasRefutation};
ghost use Rattle.rst_relation.specs.Deciding.{IsAsked, IsRefined, IsFound};

use crate::Decision;
use crate::joining::join;
use crate::marking::{are_sides, marked};
use rst_clause::Log;
use rst_early::{Apart, early};
use rst_gate::{Gates, Pattern};
use rst_landing::{Landing, lands};
use rst_outside::NoMemory;
use rst_pair::{Front, Journal, Pair};
use rst_pairinv::{Refined, refine};
use rst_replay::hop_word;
use std::alloc::Global;

// Asks where the pattern lands, with what is left of the budget.
fn decide_landing(
    alloc: Global,
    gates: &Gates,
    pattern: &Pattern,
    front: Front,
    split: Log,
    mut journal: Journal,
    budget: u32,
) -> Result<Decision, NoMemory>
    requires asked { IsAsked gates.now pattern.now }
    requires refined { IsRefined gates.now pattern.now budget front split journal }
    requires budget { budget ≤ 100000 }
    ensures work { IfOk result (λ d. HasWork gates.now pattern.now d) }
    ensures few { IfOk result (λ d. length (journal_in d) ≤ budget) }
    ensures signed { IfOk result (λ d. IsSigned d → PatternSigns (machine_of gates.now) pattern.now) }
    ensures hops { IfOk result (λ d. HasHops gates.now d) }
    ensures split { IfOk result (λ d. HasSplitLog gates.now d) }
    ensures land { IfOk result (λ d. HasLandLog gates.now pattern.now d) }
    ensures refuted { IfOk result (λ d. HasRefutation gates.now pattern.now d) }
    ensures unknown { IfOk result (λ d. IsUnknown d → length (journal_in d) ≡ budget) }
{
    are_sides(gates);
    let pair = Pair {
        left: gates,
        right: gates,
    };
    let left = budget - journal.len() as u32;
    match lands(alloc, &pair, pattern, &front, left)? {
        Landing::Inside { log, journal: more } => {
            join(alloc, &mut journal, more.as_slice())?;
            let equal = front.equal;
            let blocked = front.blocked;
            Ok(Decision::Signed {
                equal,
                blocked,
                split,
                land: log,
                journal,
            })
        }
        Landing::Outside {
            a,
            b,
            fill,
            cube,
            journal: more,
        } => {
            join(alloc, &mut journal, more.as_slice())?;
            let word = hop_word(alloc, front.blocked.as_slice(), cube as usize)?;
            Ok(Decision::Refuted {
                seq: fill,
                a,
                b,
                word,
                journal,
            })
        }
        Landing::Spent { journal: more } => {
            join(alloc, &mut journal, more.as_slice())?;
            let equal = front.equal;
            Ok(Decision::Unknown { equal, journal })
        }
    }
}

// How many pairs are drawn before the relation is refined: fewer where a run is long.
fn tries(gates: &Gates, pattern: &Pattern) -> u32 {
    let size = gates.gates.len().min(65_536);
    let cycles = pattern.len().min(1_024);
    let runs = 262_144 / ((size / 64 + 1) * (cycles + 8));
    runs.max(16).min(2_048) as u32
}

// What was found by simulation, without work of the search.
fn refuted(alloc: Global, found: Apart) -> Decision
    ensures { IsFound found result }
{
    let journal = Journal::new(alloc);
    let Apart { seq, a, b, word } = found;
    Decision::Refuted {
        seq,
        a,
        b,
        word,
        journal,
    }
}

/// Decides whether every filling of a pattern is an essential reset sequence of the gates, with at most
/// `budget` units of work.
///
/// The gates are at most 16,384 with 512 registers, 256 inputs and 256 outputs; each cube of the
/// pattern has a place for each input, and there are at most 128 cycles; `budget` is at most 100,000.
///
/// The marked registers are the largest closed set of those that three-valued simulation knows behind
/// the pattern, from the state of all X and with X at each free bit, and the journal is work of
/// `check` with these marked (`work`), with at most `budget` entries (`few`). Signed says that every
/// filling aligns every two power-up states (`signed`): its hops are right, pass and are widest
/// (`hops`), one log refutes that a related pair splits (`split`), and one that a pair of power-up
/// states lies in a blocked cube behind a filling (`land`). Refuted has a filling of the pattern, two
/// power-up states, and a word that tells them apart behind the filling (`refuted`), so the pattern
/// doesn't sign (`unsigned`). Unknown has exactly `budget` entries (`unknown`); a budget of 0 is Unknown
/// (`spends`). It is refused for want of memory alone.
pub fn decide(
    alloc: Global,
    gates: &Gates,
    pattern: &Pattern,
    budget: u32,
) -> Result<Decision, NoMemory>
    requires small { IsSmall gates.now }
    requires pattern { IsPattern (machine_of gates.now) pattern.now }
    requires cycles { length pattern.now ≤ 128 }
    requires budget { budget ≤ 100000 }
    ensures work { IfOk result (λ d. HasWork gates.now pattern.now d) }
    ensures few { IfOk result (λ d. length (journal_in d) ≤ budget) }
    ensures signed { IfOk result (λ d. IsSigned d → PatternSigns (machine_of gates.now) pattern.now) }
    ensures hops { IfOk result (λ d. HasHops gates.now d) }
    ensures split { IfOk result (λ d. HasSplitLog gates.now d) }
    ensures land { IfOk result (λ d. HasLandLog gates.now pattern.now d) }
    ensures refuted { IfOk result (λ d. HasRefutation gates.now pattern.now d) }
    ensures unsigned { IfOk result (λ d. IsRefuted d → PatternSigns (machine_of gates.now) pattern.now → ⊥) }
    ensures unknown { IfOk result (λ d. IsUnknown d → length (journal_in d) ≡ budget) }
    ensures spends { IfOk result (λ d. (IsUnknown d → ⊥) → 0 < budget) }
{
    are_sides(gates);
    let equal = marked(alloc, gates, pattern)?;
    if budget == 0 {
        let journal = Journal::new(alloc);
        return Ok(Decision::Unknown { equal, journal });
    }
    if let Some(found) = early(alloc, gates, pattern, tries(gates, pattern))? {
        return Ok(refuted(alloc, found));
    }
    let pair = Pair {
        left: gates,
        right: gates,
    };
    match refine(alloc, &pair, &equal, budget)? {
        Refined::Done {
            blocked,
            log,
            journal,
        } => {
            let front = Front {
                equal,
                blocked,
                freed: Vec::new(alloc),
            };
            decide_landing(alloc, gates, pattern, front, log, journal, budget)
        }
        Refined::Spent {
            blocked: _,
            journal,
        } => Ok(Decision::Unknown { equal, journal }),
    }
}
