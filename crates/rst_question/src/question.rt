// Questions.
use rst_flow::Net;
use rst_gate::Pattern;
use rst_script::Script;

/// Where the words of the files stand, among the command's words, from 0.
#[derive(Clone, Copy)]
pub struct Places {
    /// The script's word.
    pub script: u16,
    /// The first source's word; the others stand behind it.
    pub sources: u16,
}

/// What a script asks of a design.
#[derive(Drop)]
pub struct Question {
    pub script: Script,
    /// The design's netlist.
    pub net: Net,
    /// The inputs of the script's clock cycles.
    pub pattern: Pattern,
}
