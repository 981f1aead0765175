//! The widths and signs of expressions, their typed form, and the words of constant ones (IEEE 1364-2001, clauses 4.4 and 4.5).
//!
//! An expression is *sized* first: its names are looked up, and every part that stands by itself is typed at its own width.
//! What is left are the operators that work in the context of the whole expression; they are typed when the context is known.
//! So each part is typed once, and the work grows with the size of the expression alone.
#![tactic(auto)]

mod calls;
pub mod laws;
mod names;
mod parts;
mod scope;
mod selects;
mod sized;
mod sizing;
mod targets;
mod typed_expr;
mod typing;
mod values;

pub use calls::{
    constant, constant_among, own_shape, size_and_sign, typed, typed_in, typed_target,
};
pub use names::{Unshaped, UnshapedNames};
pub use scope::{Entry, Scope, SignalShape};
pub use typed_expr::{Shape, TypedExpr, TypedNode, WidthFault};
pub use values::{constant_word, names_signal};
