//! Rows of the clauses of gates, the finder, the solver and the checker of logs: small queries whose answers are written out.
#![tactic(auto)]

#[cfg(test)]
mod finding;
#[cfg(test)]
mod numbering;
#[cfg(test)]
mod refuting;
#[cfg(test)]
mod solving;
