// The verdict of `check`: what three-valued simulation knows, else what a relation decides.
ghost use Rattle.std.specs.Prelude.{◌≡◌, ◌≤◌, length, IfOk};
ghost use Rattle.rst_gate.specs.GateMachines.{machine_of, terns_of};
ghost use Rattle.rst_gate.specs.Patterns.{IsPattern};
ghost use Rattle.rst_gate.specs.TernMachine.{KnowsPattern};
ghost use Rattle.rst_pose.specs.Posing.{IsSmall};
ghost use Rattle.rst_relation.specs.Verdicts.{Decides, verdict_of};

use crate::Decision;
use crate::deciding::decide;
use rst_decision::knows;
use rst_gate::{Gates, Pattern};
use rst_outside::NoMemory;
use rst_verdict::{Hops, Verdict};
use std::alloc::Global;

// The verdict that a decision is.
fn verdict_of(pattern: Pattern, decision: Decision) -> Verdict
    ensures { result ≡ verdict_of pattern decision }
{
    match decision {
        Decision::Signed {
            equal,
            blocked,
            split,
            land,
            ..
        } => Verdict::SignedRelation {
            seq: pattern,
            equal,
            blocked: Hops::from_vec(blocked),
            split,
            land,
        },
        Decision::Refuted {
            seq,
            a,
            b,
            word,
            ..
        } => Verdict::Refuted { seq, a, b, word },
        Decision::Unknown { equal, journal } => Verdict::Unknown { equal, journal },
    }
}

/// The verdict on a pattern, with at most `budget` units of work.
///
/// The gates are at most 16,384 with 512 registers, 256 inputs and 256 outputs; each cube of the
/// pattern has a place for each input, and there are at most 128 cycles; `budget` is at most 100,000.
///
/// SignedKnown comes exactly where three-valued simulation knows every register behind the pattern, with
/// X at each free bit; it costs no unit. Else a relation decides: SignedRelation with its evidence, Refuted
/// with a filling, two power-up states and a word that tells them apart behind it, or Unknown with exactly
/// `budget` entries, which are work. It is refused for want of memory alone.
pub fn decide_check(
    alloc: Global,
    gates: &Gates,
    pattern: Pattern,
    budget: u32,
) -> Result<Verdict, NoMemory>
    requires small { IsSmall gates.now }
    requires pattern { IsPattern (machine_of gates.now) pattern }
    requires cycles { length pattern ≤ 128 }
    requires budget { budget ≤ 100000 }
    ensures { IfOk result (λ verdict. Decides (KnowsPattern (terns_of gates.now) pattern) gates.now pattern budget verdict) }
{
    if knows(alloc, gates, &pattern)? {
        return Ok(Verdict::SignedKnown { seq: pattern });
    }
    let decision = decide(alloc, gates, &pattern, budget)?;
    Ok(verdict_of(pattern, decision))
}
