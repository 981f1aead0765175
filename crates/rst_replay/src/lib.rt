//! What a landing proves: the word of the blocked hop tells the two states apart, and where none
//! lands every filling is an essential reset sequence.
#![tactic(auto)]

mod laws;
mod word;

pub use laws::{inside_signs, landed_pairs_are_told_apart, words_tell_apart};
pub use word::hop_word;
