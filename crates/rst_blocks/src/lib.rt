//! What the statements of blocks read and set: all of it, surely, and before it is set. The rows on blocks that a flat design has to
//! pass behind elaboration.
#![tactic(auto)]

mod reads;
mod rows;
mod sets;
mod surely;

pub use reads::read_by_unit;
pub use rows::{first_held, first_unlisted, wrong_set};
pub use sets::{driven_by, set_in, slice_has, target_has};
