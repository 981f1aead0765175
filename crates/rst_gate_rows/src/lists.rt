// Lists of bits, words of inputs, cubes.
use rst_gate::{Bits, Cube, Sequence, has};
use rst_value::Tern;
use std::test::Fail;

#[test]
fn lists(rt: HostRuntime) -> Result<(), Fail> {
    let alloc = rt.alloc();
    let mut bits = Bits::new(alloc);
    assert!(rt; bits.is_empty());
    bits.push(true)?;
    bits.push(false)?;
    assert_eq!(rt; bits.len(), 2);
    assert!(rt; *bits.get(0));
    let mut sequence = Sequence::new(alloc);
    sequence.push(Bits::from_slice(alloc, bits.as_slice())?)?;
    assert_eq!(rt; sequence.len(), 1);
    assert_eq!(rt; sequence.get(0).as_slice(), [true, false].as_slice());
    for (last, want) in [
        (Tern::Zero, true),
        (Tern::Unknown, true),
        (Tern::One, false),
    ] {
        let mut cube = Cube::from_slice(alloc, &[Tern::Unknown])?;
        cube.push(last)?;
        assert_eq!(rt; has(&cube, &bits), want);
    }
    Ok(())
}
