//! The instances of a design, with the values of their parameters and the ranges of their signals (IEEE 1364-2001, clauses 3.3,
//! 3.11 and 12.2).
#![tactic(auto)]

mod bits;
mod design;
mod extents;
mod noting;
mod parameters;
mod places;
mod ranges;

pub use design::{Design, Located, Tables, design_of};
pub use extents::{located_of, ranges_pass};
pub use parameters::{Linked, Valued, links_to};
pub use places::{Joined, Place, flat_name, instances, prefix_of};
pub use ranges::code_of;
