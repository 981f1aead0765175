//! The relation of a pair of designs: what is left of all pairs of states once those that some word
//! tells apart are blocked, cube by cube.
#![tactic(auto)]

mod block;
mod draft;
mod find;
mod hops;
mod kept;
mod lines;
mod lits;
mod names;
mod net;
mod refining;
mod states;
mod turn;

pub use refining::{Refined, refine};
