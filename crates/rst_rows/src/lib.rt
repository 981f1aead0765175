//! Tests of the whole run over desks and sinks in memory, named by what they show.
#![tactic(auto)]

#[cfg(test)]
mod bench;
#[cfg(test)]
mod decided;
#[cfg(test)]
mod faults;
#[cfg(test)]
mod known;
#[cfg(test)]
mod refused;
#[cfg(test)]
mod relations;
#[cfg(test)]
mod sources;
