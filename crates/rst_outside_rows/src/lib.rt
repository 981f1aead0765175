//! Tests of desks and sinks, in memory and real, named by what they show.
#![tactic(auto)]

#[cfg(test)]
mod bench;
#[cfg(test)]
mod faults;
#[cfg(test)]
mod pieces;
#[cfg(test)]
mod real_files;
