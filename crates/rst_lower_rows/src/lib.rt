//! Rows of the way from a text to its gates, named by what they show.
#![tactic(auto)]

#[cfg(test)]
mod lowering;
#[cfg(test)]
mod texts;
