//! Tests of values, gates and simulation, named by what they show.
#![tactic(auto)]

#[cfg(test)]
mod circuits;
#[cfg(test)]
mod gates;
#[cfg(test)]
mod laws;
#[cfg(test)]
mod lists;
#[cfg(test)]
mod patterns;
#[cfg(test)]
mod runs;
#[cfg(test)]
mod sharing;
#[cfg(test)]
mod values;
