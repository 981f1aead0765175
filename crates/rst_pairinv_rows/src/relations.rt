// Relations of small designs: how many hops there are, and what is spent for them.
use crate::asks::{is_done, is_spent, one_design, two_designs};
use crate::circuits::{guarded, hidden_toggle, self_xor, shift, toggle, toggle_beside_hidden};
use std::test::Fail;

// One question is enough: any two states behave the same.
#[test]
fn a_register_that_no_output_reads_stays_related(rt: HostRuntime) -> Result<(), Fail> {
    let alloc = rt.alloc();
    let gates = hidden_toggle(alloc)?;
    let told = one_design(alloc, &gates, &[false], 10)?;
    assert!(rt; is_done(told, 0, 1));
    Ok(())
}

// Two states differ at once, each way round; then a question shows that no other pair does.
#[test]
fn a_toggle_tells_its_states_apart(rt: HostRuntime) -> Result<(), Fail> {
    let alloc = rt.alloc();
    let gates = toggle(alloc)?;
    let told = one_design(alloc, &gates, &[false], 10)?;
    assert!(rt; is_done(told, 2, 3));
    Ok(())
}

// Three values don't know the register behind any sequence; its two states are told apart.
#[test]
fn a_xor_with_itself_is_refined(rt: HostRuntime) -> Result<(), Fail> {
    let alloc = rt.alloc();
    let gates = self_xor(alloc)?;
    let told = one_design(alloc, &gates, &[false], 10)?;
    assert!(rt; is_done(told, 2, 3));
    Ok(())
}

// The first register differs at once, and the second one cycle later.
#[test]
fn a_shift_differs_one_cycle_later(rt: HostRuntime) -> Result<(), Fail> {
    let alloc = rt.alloc();
    let gates = shift(alloc)?;
    let told = one_design(alloc, &gates, &[false, false], 10)?;
    assert!(rt; is_done(told, 4, 5));
    Ok(())
}

// The valid bit, and each bit of the data where it is valid, each way round.
#[test]
fn guarded_data_take_two_hops_a_bit(rt: HostRuntime) -> Result<(), Fail> {
    let alloc = rt.alloc();
    let gates = guarded(alloc)?;
    let told = one_design(alloc, &gates, &[false, false, false, false, false], 100)?;
    assert!(rt; is_done(told, 10, 11));
    Ok(())
}

// The states of a marked register are equal.
#[test]
fn a_marked_register_takes_no_hop(rt: HostRuntime) -> Result<(), Fail> {
    let alloc = rt.alloc();
    let gates = toggle(alloc)?;
    let told = one_design(alloc, &gates, &[true], 10)?;
    assert!(rt; is_done(told, 0, 1));
    Ok(())
}

// A pair of one state of each, the right one with a register more.
#[test]
fn two_designs_differ_in_their_states(rt: HostRuntime) -> Result<(), Fail> {
    let alloc = rt.alloc();
    let left = toggle(alloc)?;
    let right = toggle_beside_hidden(alloc)?;
    let told = two_designs(alloc, &left, &right, 10)?;
    assert!(rt; is_done(told, 2, 3));
    Ok(())
}

#[test]
fn nothing_is_done_without_a_unit(rt: HostRuntime) -> Result<(), Fail> {
    let alloc = rt.alloc();
    let gates = toggle(alloc)?;
    let told = one_design(alloc, &gates, &[false], 0)?;
    assert!(rt; is_spent(told, 0, 0));
    Ok(())
}

#[test]
fn one_unit_is_one_hop(rt: HostRuntime) -> Result<(), Fail> {
    let alloc = rt.alloc();
    let gates = toggle(alloc)?;
    let told = one_design(alloc, &gates, &[false], 1)?;
    assert!(rt; is_spent(told, 1, 1));
    Ok(())
}

#[test]
fn one_unit_is_one_path(rt: HostRuntime) -> Result<(), Fail> {
    let alloc = rt.alloc();
    let gates = hidden_toggle(alloc)?;
    let told = one_design(alloc, &gates, &[false], 1)?;
    assert!(rt; is_done(told, 0, 1));
    Ok(())
}
