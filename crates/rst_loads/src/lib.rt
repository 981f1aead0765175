//! The files that a command names, loaded in the order of its words.
#![tactic(auto)]

mod loading;

pub use loading::{Stop, TEXT_LIMIT, Texts, load_texts};
