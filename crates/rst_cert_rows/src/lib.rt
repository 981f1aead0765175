//! Rows of certificates, named by what they show. The expected texts are written out by hand from the format.
#![tactic(auto)]

#[cfg(test)]
mod bench;
#[cfg(test)]
mod giving;
#[cfg(test)]
mod writing;
