// Cycles of small circuits at both domains.
use crate::circuits::{own_xor, toggle};
use rst_gate::eval;
use rst_value::{Tern, TernDomain, TwoDomain};
use std::test::Fail;

#[test]
fn two_values(rt: HostRuntime) -> Result<(), Fail> {
    let alloc = rt.alloc();
    let gates = toggle(alloc)?;
    for (reset, q, next) in [
        (false, false, true),
        (false, true, false),
        (true, false, false),
        (true, true, false),
    ] {
        let frame = eval(alloc, &gates, &mut TwoDomain, &[reset], &[q])?;
        assert_eq!(rt; frame.outs.as_slice(), [q].as_slice());
        assert_eq!(rt; frame.nexts.as_slice(), [next].as_slice());
    }
    Ok(())
}

#[test]
fn three_values(rt: HostRuntime) -> Result<(), Fail> {
    use Tern::{One, Unknown, Zero};
    let alloc = rt.alloc();
    let gates = toggle(alloc)?;
    for (reset, q, next) in [
        (One, Unknown, Zero),
        (Zero, Unknown, Unknown),
        (Zero, Zero, One),
        (Unknown, Zero, Unknown),
        (Unknown, One, Zero),
    ] {
        let frame = eval(alloc, &gates, &mut TernDomain, &[reset], &[q])?;
        assert_eq!(rt; frame.nexts.as_slice(), [next].as_slice());
    }
    Ok(())
}

// Three values don't see that the exclusive or of a register with itself is 0.
#[test]
fn equal_operands_are_not_folded(rt: HostRuntime) -> Result<(), Fail> {
    use Tern::{One, Unknown};
    let alloc = rt.alloc();
    let gates = own_xor(alloc)?;
    let frame = eval(alloc, &gates, &mut TernDomain, &[], &[Unknown, One])?;
    assert_eq!(rt; frame.nexts.as_slice(), [Unknown, Unknown].as_slice());
    Ok(())
}
