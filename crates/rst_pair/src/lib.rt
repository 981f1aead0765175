//! Pairs of designs with the same ports: hops between cubes of pairs of states, and queries about
//! them.
#![tactic(auto)]

mod front;
mod hop;
mod journal;
mod laws;
mod pair;
mod places;
mod query;

pub use front::{Front, in_relation};
pub use hop::Hop;
pub use journal::{Entry, Journal};
pub use laws::{one_pair_passes, passing_hops_are_right, relations_keep_behaviour};
pub use pair::Pair;
pub use query::{Kind, Query};
