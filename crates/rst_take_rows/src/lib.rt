//! Rows of certificates that are taken from desks, named by what they show. The texts are written out by hand from the format.
#![tactic(auto)]

#[cfg(test)]
mod small_pieces;
#[cfg(test)]
mod taking;
