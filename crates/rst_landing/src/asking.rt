ghost use Rattle.std.specs.Prelude.{◌≡◌, IfOk};
ghost use Rattle.rst_pair.specs.declared.query.Query.TheVariants.{Split, LandFree};
ghost use Rattle.rst_pose.specs.Posing.{IsPosable};
ghost use Rattle.rst_pose.specs.Works.{HasNoCase};
ghost use Rattle.rst_landing.specs.Work.{IsLandWork};
ghost use Rattle.rst_landing.specs.Landings.{AreKnownBehind, journal_of, HasRefuted, IsSureInside, HasLanded, HasSpent};
ghost use Rattle.rst_landing.specs.Models.{AnswersLand};

use crate::Landing;
use crate::model::{are_sides, outside};
use crate::paths::conflicts;
use rst_gate::{Cube, Pattern};
use rst_outside::NoMemory;
use rst_pair::{Front, Pair, Query};
use rst_pose::pose;
use rst_solve::{Answer, solve};
use std::alloc::Global;

// The cycles of a pattern once more.
fn copied(alloc: Global, cycles: &[Cube]) -> Result<Pattern, NoMemory>
    ensures { IfOk result (λ it. it ≡ cycles.now) }
{
    let mut pattern = Pattern::new(alloc);
    for cube in cycles {
        pattern.push(Cube::from_slice(alloc, cube.as_slice())?)?;
    }
    Ok(pattern)
}

// Whether some pair lands, as the solver finds it.
fn ask(
    alloc: Global,
    pair: &Pair,
    seq: &Pattern,
    front: &Front,
    left: u32,
) -> Result<Answer, NoMemory>
    requires { IsPosable pair.now front.now (LandFree seq.now) }
    ensures { IfOk result (λ a. AnswersLand pair.now front.now seq.now left a) }
{
    let pattern = copied(alloc, seq.as_slice())?;
    let query = Query::LandFree(pattern);
    let clauses = pose(alloc, pair, front, &query)?;
    solve(alloc, &clauses, left)
}

/// Whether a pattern leads some pair of power-up states into a blocked cube, with at most `left`
/// units of work. Both states take the same filling of the pattern.
///
/// Gates, hops and cycles are within the limits of every call (`posable`). Each marked register is
/// known behind the pattern, from the state of all X and with X at each free bit, and has the same
/// value on both sides (`known`). No pair of the front's relation splits (`split`).
///
/// The journal has a conflict of landing for each path of the search, at most `left`; they are work
/// behind any work of `check` with the front's blocked hops, in which nothing has landed yet
/// (`journal`). Inside has a log that refutes the posed query (`refutes`), and then every pair of
/// power-up states is one of the relation behind every filling (`inside`). Outside names two
/// power-up states, a filling, and the first blocked cube that holds their pair behind it
/// (`outside`). Spent has exactly `left` conflicts (`spent`). The query is asked also where `left`
/// is 0: a pair that is found without a conflict costs nothing. It is refused for want of memory
/// alone.
pub fn lands(
    alloc: Global,
    pair: &Pair,
    seq: &Pattern,
    front: &Front,
    left: u32,
) -> Result<Landing, NoMemory>
    requires posable { IsPosable pair.now front.now (LandFree seq.now) }
    requires known { AreKnownBehind pair.now front.now.equal seq.now }
    requires split { HasNoCase pair.now front.now Split }
    ensures journal { IfOk result (λ a. IsLandWork pair.now front.now seq.now left (journal_of a)) }
    ensures refutes { IfOk result (λ a. HasRefuted pair.now front.now seq.now a) }
    ensures inside { IfOk result (λ a. IsSureInside pair.now front.now seq.now a) }
    ensures outside { IfOk result (λ a. HasLanded pair.now front.now seq.now a) }
    ensures spent { IfOk result (λ a. HasSpent left a) }
{
    are_sides(pair);
    match ask(alloc, pair, seq, front, left)? {
        Answer::Model { bits, paths } => {
            let journal = conflicts(alloc, paths)?;
            outside(alloc, pair, front, seq, bits.as_slice(), journal)
        }
        Answer::Refuted { log, paths } => {
            let journal = conflicts(alloc, paths)?;
            Ok(Landing::Inside { log, journal })
        }
        Answer::Spent { paths } => {
            let journal = conflicts(alloc, paths)?;
            Ok(Landing::Spent { journal })
        }
    }
}
