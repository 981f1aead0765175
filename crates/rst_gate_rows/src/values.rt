// The operations at both domains, against the tables of the standard.
ghost use Rattle.rst_value.specs.Domains.{HasRoom};

use rst_outside::NoMemory;
use rst_value::{
    Domain, Tern, TernDomain, TwoDomain, tables, tern_and, tern_mux, tern_not, tern_xor,
};
use std::test::Fail;

const PLACES: [Tern; 3] = [Tern::Zero, Tern::One, Tern::Unknown];

// Whether both are one where the select is one, else the opposite of `b`, by one call of each
// operation through the bound.
fn each_operation<D: Domain>(
    dom: &mut D,
    a: D::Val,
    b: D::Val,
    select: D::Val,
) -> Result<D::Val, NoMemory>
    requires held_a { D.held dom.old a }
    requires held_b { D.held dom.old b }
    requires held_select { D.held dom.old select }
    requires room { HasRoom 5 (D.spare dom.old) }
{
    let low = dom.constant(false)?;
    let both = dom.and(a, b)?;
    let differ = dom.xor(both, low)?;
    let opposite = dom.not(b)?;
    dom.mux(select, differ, opposite)
}

#[test]
fn one_operand(rt: HostRuntime) {
    tables();
    let negations = [Tern::One, Tern::Zero, Tern::Unknown];
    for i in 0..3 {
        assert_eq!(rt; tern_not(PLACES[i]), negations[i]);
    }
}

#[test]
fn two_operands(rt: HostRuntime) {
    use Tern::{One, Unknown, Zero};
    let both = [Zero, Zero, Zero, Zero, One, Unknown, Zero, Unknown, Unknown];
    let differ = [
        Zero, One, Unknown, One, Zero, Unknown, Unknown, Unknown, Unknown,
    ];
    for i in 0..3 {
        for k in 0..3 {
            assert_eq!(rt; tern_and(PLACES[i], PLACES[k]), both[3 * i + k]);
            assert_eq!(rt; tern_xor(PLACES[i], PLACES[k]), differ[3 * i + k]);
        }
    }
}

#[test]
fn an_unknown_select_keeps_what_both_have(rt: HostRuntime) {
    use Tern::{One, Unknown, Zero};
    let common = [
        Zero, Unknown, Unknown, Unknown, One, Unknown, Unknown, Unknown, Unknown,
    ];
    for i in 0..3 {
        for k in 0..3 {
            assert_eq!(rt; tern_mux(One, PLACES[i], PLACES[k]), PLACES[i]);
            assert_eq!(rt; tern_mux(Zero, PLACES[i], PLACES[k]), PLACES[k]);
            assert_eq!(rt; tern_mux(Unknown, PLACES[i], PLACES[k]), common[3 * i + k]);
        }
    }
}

#[test]
fn bits_through_the_bound(rt: HostRuntime) -> Result<(), Fail> {
    for (a, b, select, want) in [
        (false, false, true, false),
        (true, true, true, true),
        (true, false, true, false),
        (true, false, false, true),
        (false, true, false, false),
    ] {
        assert_eq!(rt; each_operation(&mut TwoDomain, a, b, select)?, want);
    }
    Ok(())
}

#[test]
fn three_values_through_the_bound(rt: HostRuntime) -> Result<(), Fail> {
    use Tern::{One, Unknown, Zero};
    for (a, b, select, want) in [
        (One, One, One, One),
        (One, Unknown, One, Unknown),
        (Zero, Unknown, One, Zero),
        (Zero, One, Unknown, Zero),
        (Zero, Zero, Unknown, Unknown),
        (One, One, Unknown, Unknown),
    ] {
        assert_eq!(rt; each_operation(&mut TernDomain, a, b, select)?, want);
    }
    Ok(())
}
