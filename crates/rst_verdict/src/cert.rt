use crate::Verdict;
use rst_outside::Name;

/// A certificate: a verdict, and the design's numbers of bits.
#[derive(Drop)]
pub struct Cert {
    /// The version of the script that was signed, 1 or 2. In version 1 no bit is free.
    pub version: u32,
    /// How the further variables of a query are numbered: the form that another run has to have.
    pub form: u32,
    /// The name of the design's clock, if it has one.
    pub clock: Option<Name>,
    /// How many register bits the design has.
    pub registers: u32,
    /// How many input bits the design has, without the clock.
    pub inputs: u32,
    /// How many output bits the design has.
    pub outputs: u32,
    /// The verdict, with its evidence.
    pub verdict: Verdict,
}
