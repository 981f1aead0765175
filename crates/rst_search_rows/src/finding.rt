// Small sets of clauses, worked by hand, under assumptions and with clauses added between calls.
use rst_cdcl::{Outcome, Solver};
use std::alloc::Global;
use std::test::Fail;

// Variables 1 and 2 imply 3, and 3 implies 4.
fn chain(alloc: Global, early: u32) -> Result<Solver, Fail> {
    let mut solver = Solver::new(alloc, 5, early)?;
    solver.expect(&[-1, -2, 3]);
    solver.make_room()?;
    solver.add(&[-1, -2, 3])?;
    solver.add(&[-3, 4])?;
    Ok(solver)
}

#[test]
fn models_follow_the_assumptions(rt: HostRuntime) -> Result<(), Fail> {
    for early in 0..3 {
        let mut solver = chain(rt.alloc(), early)?;
        match solver.solve(&[1, 2], 100)? {
            Outcome::Model(bits) => {
                assert_eq!(rt; bits.len(), 5);
                assert_eq!(rt; bits.get(2).copied(), Some(true));
                assert_eq!(rt; bits.get(3).copied(), Some(true));
            }
            _ => assert!(rt; false, "no model"),
        }
        assert_eq!(rt; solver.conflicts(), 0);
        assert!(rt; solver.decisions() <= 1);
    }
    Ok(())
}

#[test]
fn a_core_has_what_refutes(rt: HostRuntime) -> Result<(), Fail> {
    let mut solver = chain(rt.alloc(), 0)?;
    match solver.solve(&[5, 1, 2, -4], 100)? {
        Outcome::Refuted(core) => assert_eq!(rt; core.as_slice(), [-4, 2, 1].as_slice()),
        _ => assert!(rt; false, "not refuted"),
    }
    Ok(())
}

#[test]
fn a_core_has_both_of_two_opposites(rt: HostRuntime) -> Result<(), Fail> {
    let mut solver = chain(rt.alloc(), 0)?;
    match solver.solve(&[5, -5], 100)? {
        Outcome::Refuted(core) => assert_eq!(rt; core.as_slice(), [-5, 5].as_slice()),
        _ => assert!(rt; false, "not refuted"),
    }
    Ok(())
}

#[test]
fn a_core_has_opposites_that_others_imply(rt: HostRuntime) -> Result<(), Fail> {
    let mut solver = chain(rt.alloc(), 0)?;
    match solver.solve(&[1, 5, -1], 100)? {
        Outcome::Refuted(core) => {
            assert!(rt; core.as_slice().contains(&1));
            assert!(rt; core.as_slice().contains(&-1));
        }
        _ => assert!(rt; false, "not refuted"),
    }
    Ok(())
}

#[test]
fn clauses_are_added_between_calls(rt: HostRuntime) -> Result<(), Fail> {
    let mut solver = chain(rt.alloc(), 0)?;
    assert!(rt; matches!(solver.solve(&[1], 100)?, Outcome::Model(_)));
    solver.add(&[2])?;
    solver.add(&[-4, 5])?;
    assert!(rt; matches!(solver.solve(&[1, -5], 100)?, Outcome::Refuted(_)));
    assert!(rt; matches!(solver.solve(&[1], 100)?, Outcome::Model(_)));
    solver.add(&[1])?;
    solver.add(&[-5])?;
    assert!(rt; matches!(solver.solve(&[], 100)?, Outcome::Refuted(_)));
    let log = solver.log();
    let last = log.len().saturating_sub(1);
    assert!(rt; log.len() > 0);
    assert!(rt; log.get(last).is_empty());
    Ok(())
}

// Three pigeons do not fit into two holes: pigeon p, from 0, sits in the hole h by the variable
// 2p + h + 1.
#[test]
fn no_conflict_allowed_gives_up(rt: HostRuntime) -> Result<(), Fail> {
    let mut solver = Solver::new(rt.alloc(), 6, 0)?;
    for clause in [[1, 2], [3, 4], [5, 6]] {
        solver.add(&clause)?;
    }
    for clause in [[-1, -3], [-1, -5], [-3, -5], [-2, -4], [-2, -6], [-4, -6]] {
        solver.add(&clause)?;
    }
    assert!(rt; matches!(solver.solve(&[], 0)?, Outcome::GaveUp));
    assert!(rt; matches!(solver.solve(&[], 100)?, Outcome::Refuted(_)));
    assert!(rt; solver.conflicts() > 0);
    Ok(())
}
