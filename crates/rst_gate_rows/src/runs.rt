// Runs and closed sets of small circuits, worked by hand.
use crate::circuits::{chain, is_two, selected, toggle};
use rst_gate::{Bits, Cube, Sequence};
use rst_sim::{closed_equal, tern_cycle, tern_run, two_cycle, two_run};
use rst_value::Tern;
use std::test::Fail;

#[test]
fn toggle_in_two_values(rt: HostRuntime) -> Result<(), Fail> {
    let alloc = rt.alloc();
    let gates = toggle(alloc)?;
    let mut word = Sequence::new(alloc);
    word.push(Bits::from_slice(alloc, &[true])?)?;
    word.push(Bits::from_slice(alloc, &[false])?)?;
    let trace = two_run(alloc, &gates, &Bits::from_slice(alloc, &[true])?, &word)?;
    assert_eq!(rt; trace.outs.len(), 2);
    assert_eq!(rt; trace.outs[0].as_slice(), [true].as_slice());
    assert_eq!(rt; trace.outs[1].as_slice(), [false].as_slice());
    assert_eq!(rt; trace.last.as_slice(), [true].as_slice());
    Ok(())
}

#[test]
fn toggle_in_three_values(rt: HostRuntime) -> Result<(), Fail> {
    use Tern::{One, Unknown, Zero};
    let alloc = rt.alloc();
    let gates = toggle(alloc)?;
    let mut word = Sequence::new(alloc);
    word.push(Bits::from_slice(alloc, &[false])?)?;
    word.push(Bits::from_slice(alloc, &[true])?)?;
    word.push(Bits::from_slice(alloc, &[false])?)?;
    let start = Cube::from_slice(alloc, &[Unknown])?;
    let trace = tern_run(alloc, &gates, &start, &word)?;
    assert_eq!(rt; trace.states.len(), 4);
    for (i, want) in [(0, Unknown), (1, Unknown), (2, Zero), (3, One)] {
        assert_eq!(rt; trace.states[i].as_slice(), [want].as_slice());
    }
    Ok(())
}

#[test]
fn closed_sets(rt: HostRuntime) -> Result<(), Fail> {
    let alloc = rt.alloc();
    let gates = chain(alloc)?;
    for (known, closed) in [
        ([true, true, true], [true, true, true]),
        ([false, true, true], [false, false, false]),
        ([true, false, true], [true, false, false]),
        ([true, true, false], [true, true, false]),
    ] {
        let known = Bits::from_slice(alloc, known.as_slice())?;
        let set = closed_equal(alloc, &gates, &known)?;
        assert_eq!(rt; set.as_slice(), closed.as_slice());
    }
    Ok(())
}

// The registers of a closed set don't depend on another one by a mux's select either.
#[test]
fn a_select_lies_below_its_mux(rt: HostRuntime) -> Result<(), Fail> {
    let alloc = rt.alloc();
    let gates = selected(alloc)?;
    for (known, closed) in [
        ([false, true], [false, false]),
        ([true, true], [true, true]),
    ] {
        let known = Bits::from_slice(alloc, known.as_slice())?;
        let set = closed_equal(alloc, &gates, &known)?;
        assert_eq!(rt; set.as_slice(), closed.as_slice());
    }
    Ok(())
}

#[test]
fn the_most_significant_bit_comes_first(rt: HostRuntime) -> Result<(), Fail> {
    let alloc = rt.alloc();
    let gates = is_two(alloc)?;
    for (number, bits) in [
        (0, [false, false]),
        (1, [false, true]),
        (2, [true, false]),
        (3, [true, true]),
    ] {
        let frame = two_cycle(alloc, &gates, &[], bits.as_slice())?;
        assert_eq!(rt; frame.outs.as_slice(), [number == 2].as_slice());
    }
    Ok(())
}

#[test]
fn a_cycle_with_an_unknown_input(rt: HostRuntime) -> Result<(), Fail> {
    use Tern::{One, Unknown, Zero};
    let alloc = rt.alloc();
    let gates = toggle(alloc)?;
    for (reset, q, next) in [
        (Unknown, One, Zero),
        (Unknown, Zero, Unknown),
        (One, Unknown, Zero),
    ] {
        let frame = tern_cycle(alloc, &gates, &[q], &[reset])?;
        assert_eq!(rt; frame.outs.as_slice(), [q].as_slice());
        assert_eq!(rt; frame.nexts.as_slice(), [next].as_slice());
    }
    Ok(())
}
