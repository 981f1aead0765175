// The numbering and the clauses of a small formula, worked by hand.
use rst_clause::{Clause, ClauseDomain, Lit, Log};
use rst_value::Domain;
use std::test::Fail;

#[test]
fn gates_take_the_next_variables(rt: HostRuntime) -> Result<(), Fail> {
    let mut domain = ClauseDomain::new(rt.alloc(), 2)?;
    let x = domain.free_bit(0);
    let y = domain.free_bit(1);
    let low = domain.constant(false)?;
    let both = domain.and(x, y)?;
    let differ = domain.xor(both, y)?;
    let chosen = domain.mux(x, differ, both)?;
    let other = domain.not(chosen)?;
    domain.require(&[other, low])?;
    let clauses = domain.finish();
    let wanted = [
        [-3, 0, 0],
        [-4, 1, 0],
        [-4, 2, 0],
        [4, -1, -2],
        [-5, 4, 2],
        [-5, -4, -2],
        [5, -4, 2],
        [5, 4, -2],
        [-6, -1, 5],
        [6, -1, -5],
        [-6, 1, 4],
        [6, 1, -4],
    ];
    assert_eq!(rt; clauses.vars, 6);
    assert_eq!(rt; clauses.fixed.len(), wanted.len());
    for (i, want) in wanted.iter().enumerate() {
        for (j, lit) in clauses.fixed.get(i).iter().enumerate() {
            assert!(rt; j < 3 && lit.number() == want[j], "clause {i}");
        }
    }
    assert_eq!(rt; clauses.required.len(), 1);
    assert_eq!(rt; clauses.required.get(0).len(), 2);
    Ok(())
}

#[test]
fn lists_grow(rt: HostRuntime) -> Result<(), Fail> {
    let mut line = Clause::new(rt.alloc());
    line.push(Lit::new(-7))?;
    assert_eq!(rt; line.get(0).number(), -7);
    let copy = Clause::from_slice(rt.alloc(), line.as_slice())?;
    let mut log = Log::new(rt.alloc());
    log.push(copy)?;
    log.push(line)?;
    assert_eq!(rt; log.len(), 2);
    assert_eq!(rt; log.get(1).len(), 1);
    Ok(())
}
