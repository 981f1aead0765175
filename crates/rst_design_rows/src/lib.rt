//! Rows of the way from texts to a design, named by what they show.
#![tactic(auto)]

#[cfg(test)]
mod elaborating;
#[cfg(test)]
mod files;
#[cfg(test)]
mod reading;
#[cfg(test)]
mod texts;
