// Patterns of the toggle and of the chain.
use crate::asks::{Told, ask};
use crate::circuits::{chain, toggle};
use crate::fronts::{of_chain, of_toggle, pattern};
use rst_outside::NoMemory;
use rst_value::Tern;
use rst_value::Tern::{One, Unknown, Zero};
use std::alloc::Global;
use std::test::Fail;

fn toggled(alloc: Global, places: &[Tern], left: u32) -> Result<Told, NoMemory> {
    let gates = toggle(alloc)?;
    let front = of_toggle(alloc)?;
    ask(alloc, &gates, &front, pattern(alloc, places)?, left)
}

fn shifted(alloc: Global, places: &[Tern], left: u32) -> Result<Told, NoMemory> {
    let gates = chain(alloc)?;
    let front = of_chain(alloc)?;
    ask(alloc, &gates, &front, pattern(alloc, places)?, left)
}

fn is_inside(told: Told) -> bool {
    matches!(told, Told::Inside(_))
}

// Whether a pair of the toggle lands behind inputs that never reset it, of which there are so many:
// its states differ, and the cube is that of the pair which they then are.
fn lands_unreset(told: Told, odd: bool) -> bool {
    match told {
        Told::Outside(cube, a, b, fill) => {
            let last = a[0] != odd;
            a[0] != b[0] && cube == u32::from(!last) && !fill[0] && !fill[1]
        }
        _ => false,
    }
}

#[test]
fn the_reset_toggle_stays_inside(rt: HostRuntime) -> Result<(), Fail> {
    let alloc = rt.alloc();
    assert!(rt; is_inside(toggled(alloc, &[One], 100)?));
    assert!(rt; is_inside(toggled(alloc, &[Zero, One], 100)?));
    assert!(rt; is_inside(toggled(alloc, &[One, Zero], 100)?));
    Ok(())
}

#[test]
fn the_free_running_toggle_lands(rt: HostRuntime) -> Result<(), Fail> {
    let alloc = rt.alloc();
    assert!(rt; lands_unreset(toggled(alloc, &[], 100)?, false));
    assert!(rt; lands_unreset(toggled(alloc, &[Zero], 100)?, true));
    assert!(rt; lands_unreset(toggled(alloc, &[Zero, Zero], 100)?, false));
    Ok(())
}

// A free bit is filled so that the toggle isn't reset, and where it is reset later no filling lands.
#[test]
fn a_free_bit_is_filled(rt: HostRuntime) -> Result<(), Fail> {
    let alloc = rt.alloc();
    assert!(rt; lands_unreset(toggled(alloc, &[Unknown], 100)?, true));
    assert!(rt; lands_unreset(toggled(alloc, &[Unknown, Unknown], 100)?, false));
    assert!(rt; is_inside(toggled(alloc, &[Unknown, One], 100)?));
    Ok(())
}

// Behind one cycle the first registers are what the second ones were: the pair lies in the cube of
// those that differ there, and in none before it.
#[test]
fn the_chain_lands_behind_one_cycle(rt: HostRuntime) -> Result<(), Fail> {
    let alloc = rt.alloc();
    let landed = match shifted(alloc, &[Zero], 100)? {
        Told::Outside(cube, a, b, fill) => a[1] != b[1] && cube == u32::from(a[1]) && !fill[0],
        _ => false,
    };
    assert!(rt; landed);
    assert!(rt; is_inside(shifted(alloc, &[Zero, Zero], 100)?));
    assert!(rt; is_inside(shifted(alloc, &[Unknown, Unknown], 100)?));
    Ok(())
}

// Without a unit a pair that lands is found, and that none does is not.
#[test]
fn a_budget_of_none(rt: HostRuntime) -> Result<(), Fail> {
    let alloc = rt.alloc();
    assert!(rt; lands_unreset(toggled(alloc, &[Zero], 0)?, true));
    assert!(rt; matches!(toggled(alloc, &[One], 0)?, Told::Spent(0)));
    assert!(rt; matches!(toggled(alloc, &[One], 1)?, Told::Inside(1)));
    Ok(())
}
