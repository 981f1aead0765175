//! Rows of certificates that are read, named by what they show. The texts are written out by hand from the format.
#![tactic(auto)]

#[cfg(test)]
mod long_lines;
#[cfg(test)]
mod reading;
