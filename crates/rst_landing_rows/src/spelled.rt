// The words of hops.
use rst_gate::Sequence;
use rst_outside::NoMemory;
use rst_pair::{Front, Pair, Query};
use rst_pose::is_posable;
use rst_replay::hop_word;
use std::alloc::Global;

/// The word of a blocked hop; none where the front doesn't fit the pair, or has no such hop.
pub(crate) fn word_at(
    alloc: Global,
    pair: &Pair,
    front: &Front,
    place: usize,
) -> Result<Option<Sequence>, NoMemory> {
    if !is_posable(pair, front, &Query::Split) || place >= front.blocked.len() {
        return Ok(None);
    }
    let word = hop_word(alloc, front.blocked.as_slice(), place)?;
    Ok(Some(word))
}
