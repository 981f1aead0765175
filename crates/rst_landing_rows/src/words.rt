// The words of the chain's hops.
use crate::circuits::chain;
use crate::fronts::of_chain;
use crate::spelled::word_at;
use rst_gate::Sequence;
use rst_outside::NoMemory;
use rst_pair::Pair;
use std::alloc::Global;
use std::test::Fail;

// Whether the word has these inputs.
fn is(word: &Option<Sequence>, inputs: &[bool]) -> bool {
    match word {
        Some(word) => {
            if word.len() != inputs.len() {
                return false;
            }
            for i in 0..inputs.len() {
                if i >= word.len() || word.get(i).as_slice() != &inputs[i..i + 1] {
                    return false;
                }
            }
            true
        }
        None => false,
    }
}

fn has(alloc: Global, place: usize, inputs: &[bool]) -> Result<bool, NoMemory> {
    let gates = chain(alloc)?;
    let front = of_chain(alloc)?;
    let pair = Pair {
        left: &gates,
        right: &gates,
    };
    let word = word_at(alloc, &pair, &front, place)?;
    Ok(is(&word, inputs))
}

#[test]
fn words_follow_the_next_hops(rt: HostRuntime) -> Result<(), Fail> {
    let alloc = rt.alloc();
    assert!(rt; has(alloc, 0, &[false])?);
    assert!(rt; has(alloc, 1, &[false])?);
    assert!(rt; has(alloc, 2, &[true, false])?);
    assert!(rt; has(alloc, 3, &[true, false])?);
    Ok(())
}
