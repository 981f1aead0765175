//! The widening of hops: their cubes made as wide as one three-valued cycle still shows.
#![tactic(auto)]

mod aim;
mod cycle;
mod order;
mod places;
mod widen;

pub use widen::{widen_blocked, widen_freed};
