ghost use Rattle.std.specs.Prelude.{◌≡◌, ◌<◌, length, IfOk};
ghost use Rattle.rst_pair.specs.Hops.{word_of};
ghost use Rattle.rst_replay.specs.Words.{HaveEarlierNexts};

use rst_gate::{Bits, Sequence};
use rst_outside::NoMemory;
use rst_pair::Hop;
use std::alloc::Global;

/// The word of a hop, by its place in the list: its input, then the word of its next hop.
///
/// Each hop's next hop stands before it, so the word ends behind a hop without one, after at most as
/// many cycles as there are hops. It is refused for want of memory alone.
pub fn hop_word(alloc: Global, hops: &[Hop], place: usize) -> Result<Sequence, NoMemory>
    requires nexts { HaveEarlierNexts hops.now }
    requires place { place < length hops.now }
    ensures { IfOk result (λ word. word ≡ word_of hops.now place) }
{
    let mut word = Sequence::new(alloc);
    let mut at = place;
    'follow: loop {
        let hop = &hops[at];
        word.push(Bits::from_slice(alloc, hop.input.as_slice())?)?;
        match hop.next {
            Some(next) => at = next as usize,
            None => return Ok(word),
        }
    }
}
