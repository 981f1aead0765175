// Patterns of inputs, their fillings, and runs in which free bits are X.
use crate::circuits::both_inputs;
use rst_gate::{Bits, Cube, Pattern, filled, free_places, known_pattern};
use rst_sim::tern_run_free;
use rst_value::Tern;
use std::test::Fail;

// Two cycles over two inputs, with a free bit in each.
#[test]
fn free_bits_are_taken_cycle_by_cycle(rt: HostRuntime) -> Result<(), Fail> {
    use Tern::{One, Unknown, Zero};
    let alloc = rt.alloc();
    let mut pattern = Pattern::new(alloc);
    assert!(rt; pattern.is_empty());
    pattern.push(Cube::from_slice(alloc, &[Unknown, Zero])?)?;
    pattern.push(Cube::from_slice(alloc, &[One, Unknown])?)?;
    assert_eq!(rt; pattern.len(), 2);
    assert_eq!(rt; free_places(pattern.get(0)), 1);
    for (first, second) in [(false, false), (false, true), (true, false), (true, true)] {
        let word = filled(alloc, &pattern, &[first, second])?;
        assert_eq!(rt; word.len(), 2);
        assert_eq!(rt; word.get(0).as_slice(), [first, false].as_slice());
        assert_eq!(rt; word.get(1).as_slice(), [true, second].as_slice());
    }
    Ok(())
}

#[test]
fn a_word_is_the_pattern_without_free_bits(rt: HostRuntime) -> Result<(), Fail> {
    let alloc = rt.alloc();
    let word = vec![in alloc; Bits::from_slice(alloc, &[true, false])?]?;
    let pattern = known_pattern(alloc, word.as_slice())?;
    assert_eq!(rt;
        pattern.get(0).as_slice(),
        [Tern::One, Tern::Zero].as_slice()
    );
    let filling = filled(alloc, &pattern, &[])?;
    assert_eq!(rt; filling.get(0).as_slice(), [true, false].as_slice());
    Ok(())
}

// A free bit stays X where the other input is 1, and is masked where it is 0.
#[test]
fn a_known_zero_masks_a_free_bit(rt: HostRuntime) -> Result<(), Fail> {
    use Tern::{One, Unknown, Zero};
    let alloc = rt.alloc();
    let gates = both_inputs(alloc)?;
    let mut pattern = Pattern::new(alloc);
    pattern.push(Cube::from_slice(alloc, &[Unknown, Zero])?)?;
    pattern.push(Cube::from_slice(alloc, &[Unknown, One])?)?;
    pattern.push(Cube::from_slice(alloc, &[Zero, Unknown])?)?;
    let start = Cube::from_slice(alloc, &[Unknown])?;
    let trace = tern_run_free(alloc, &gates, &start, &pattern)?;
    assert_eq!(rt; trace.states.len(), 4);
    for (i, want) in [(0, Unknown), (1, Zero), (2, Unknown), (3, Zero)] {
        assert_eq!(rt; trace.states[i].as_slice(), [want].as_slice());
    }
    Ok(())
}
