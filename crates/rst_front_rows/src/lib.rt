//! Tests of the front end's public calls, named by what they show: tokens, heights of trees, equal ranges, the readers, the parser,
//! widths, and what operators give.
#![tactic(auto)]

#[cfg(test)]
mod expressions;
#[cfg(test)]
mod heights;
#[cfg(test)]
mod items;
#[cfg(test)]
mod modules;
#[cfg(test)]
mod ranges;
#[cfg(test)]
mod statements;
#[cfg(test)]
mod texts;
#[cfg(test)]
mod tokens;
#[cfg(test)]
mod width_contexts;
#[cfg(test)]
mod widths;
#[cfg(test)]
mod words;
