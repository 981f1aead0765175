//! Rows of landing: where patterns lead pairs of states of small circuits.
#![tactic(auto)]

mod asks;
mod circuits;
mod fronts;
#[cfg(test)]
mod patterns;
mod spelled;
#[cfg(test)]
mod words;
