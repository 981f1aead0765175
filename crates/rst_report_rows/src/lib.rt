//! Tests of the texts that a run prints of a verdict, of rows of known registers, and of the
//! demonstration's design, named by what they show.
#![tactic(auto)]

#[cfg(test)]
mod demo;
#[cfg(test)]
mod reports;
#[cfg(test)]
mod rows;
#[cfg(test)]
mod values;
