// What the solver finds for each kind of query about a toggle beside itself.
use crate::circuits::toggle;
use crate::fronts::{Found, ask, differs, front, has, is_nothing};
use rst_gate::{Bits, Cube, Pattern, Sequence};
use rst_outside::NoMemory;
use rst_pair::Query;
use rst_value::Tern;
use rst_value::Tern::{One, Unknown, Zero};
use std::alloc::Global;
use std::test::Fail;

// Pairs that differ are told apart by their outputs.
const DIFFER: [[Tern; 2]; 2] = [[One, Zero], [Zero, One]];

// What is found about the toggle with a front of so many of these cubes.
fn about(
    alloc: Global,
    marked: bool,
    blocked: usize,
    freed: usize,
    query: &Query,
) -> Result<Found, NoMemory> {
    let gates = toggle(alloc)?;
    let front = front(
        alloc,
        marked,
        &DIFFER[..blocked.min(2)],
        &DIFFER[..freed.min(2)],
    )?;
    ask(alloc, &gates, &front, query)
}

// Land behind a word of one input.
fn land(alloc: Global, blocked: usize, reset: bool) -> Result<Found, NoMemory> {
    let input = Bits::from_slice(alloc, &[reset])?;
    let mut word = Sequence::new(alloc);
    word.push(input)?;
    let query = Query::Land(word);
    about(alloc, false, blocked, 0, &query)
}

// Land behind a pattern of one input.
fn land_free(alloc: Global, reset: Tern) -> Result<Found, NoMemory> {
    let input = Cube::from_slice(alloc, &[reset])?;
    let mut pattern = Pattern::new(alloc);
    pattern.push(input)?;
    let query = Query::LandFree(pattern);
    about(alloc, false, 2, 0, &query)
}

#[test]
fn split(rt: HostRuntime) -> Result<(), Fail> {
    let alloc = rt.alloc();
    let found = about(alloc, false, 0, 0, &Query::Split)?;
    assert!(rt; differs(found, 1, 2));
    let found = about(alloc, false, 1, 0, &Query::Split)?;
    assert!(rt; has(found, 1, false) && has(found, 2, true));
    let found = about(alloc, false, 2, 0, &Query::Split)?;
    assert!(rt; is_nothing(found));
    let found = about(alloc, true, 0, 0, &Query::Split)?;
    assert!(rt; is_nothing(found));
    Ok(())
}

#[test]
fn land_behind_a_word(rt: HostRuntime) -> Result<(), Fail> {
    let alloc = rt.alloc();
    let found = about(alloc, false, 2, 0, &Query::Land(Sequence::new(alloc)))?;
    assert!(rt; differs(found, 0, 1));
    assert!(rt; differs(land(alloc, 2, false)?, 0, 1));
    assert!(rt; is_nothing(land(alloc, 2, true)?));
    let found = land(alloc, 1, false)?;
    assert!(rt; has(found, 0, false) && has(found, 1, true));
    Ok(())
}

#[test]
fn land_behind_a_pattern(rt: HostRuntime) -> Result<(), Fail> {
    let alloc = rt.alloc();
    let found = land_free(alloc, Unknown)?;
    assert!(rt; differs(found, 0, 1) && has(found, 2, false));
    assert!(rt; is_nothing(land_free(alloc, One)?));
    assert!(rt; differs(land_free(alloc, Zero)?, 0, 1));
    Ok(())
}

#[test]
fn stuck(rt: HostRuntime) -> Result<(), Fail> {
    let alloc = rt.alloc();
    assert!(rt; is_nothing(about(alloc, false, 0, 0, &Query::Stuck)?));
    assert!(rt; differs(about(alloc, false, 2, 0, &Query::Stuck)?, 0, 1));
    let found = about(alloc, false, 2, 1, &Query::Stuck)?;
    assert!(rt; has(found, 0, false) && has(found, 1, true));
    assert!(rt; is_nothing(about(alloc, false, 2, 2, &Query::Stuck)?));
    Ok(())
}

#[test]
fn escape(rt: HostRuntime) -> Result<(), Fail> {
    let alloc = rt.alloc();
    assert!(rt; is_nothing(about(alloc, false, 0, 0, &Query::Escape)?));
    let found = about(alloc, false, 2, 0, &Query::Escape)?;
    assert!(rt; differs(found, 1, 2) && has(found, 0, true));
    assert!(rt; is_nothing(about(alloc, false, 2, 2, &Query::Escape)?));
    Ok(())
}
