//! Rows of relations: what refining answers about small designs, worked by hand.
#![tactic(auto)]

mod asks;
mod circuits;
#[cfg(test)]
mod relations;
