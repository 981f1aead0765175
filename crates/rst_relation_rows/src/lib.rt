//! Rows of relations that decide: what is answered of patterns of small circuits, worked by hand.
#![tactic(auto)]

mod asks;
mod checking;
#[cfg(test)]
mod checks;
mod circuits;
#[cfg(test)]
mod decisions;
#[cfg(test)]
mod fillings;
#[cfg(test)]
mod free_checks;
