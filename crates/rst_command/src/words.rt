// What the words of a command line say.
ghost use Rattle.std.specs.Prelude.{◌≤◌, length};

/// A word of the command line that names a file.
#[derive(Clone, Copy)]
pub struct Word<'a> {
    /// Where it stands among the command's words, from 0.
    pub place: u16,
    /// What it says.
    pub text: &'a str,
}

/// The words that name sources, one behind the other.
#[derive(Clone, Copy)]
pub struct Files<'a> {
    /// Where the first stands among the command's words, from 0.
    pub first: u16,
    /// What they say.
    pub texts: &'a [String],
    pub ghost low: { first ≤ 4 },
    pub ghost some: { 1 ≤ length texts.now },
    pub ghost few: { length texts.now ≤ 64 },
}

/// What a question about a design is read from.
#[derive(Clone, Copy)]
pub struct Input<'a> {
    /// The name of the top module.
    pub top: &'a str,
    /// The file of the script.
    pub script: Word<'a>,
    /// The files of the sources, 1 to 64 of them.
    pub files: Files<'a>,
}

/// A command of the tool.
#[derive(Clone, Copy)]
pub enum Command<'a> {
    /// `check TOP SCRIPT CERT FILE..`: decides the script's sequence for the module TOP of the FILEs, and saves a certificate
    /// under CERT.
    Check {
        input: Input<'a>,
        /// The name that the certificate is saved under.
        cert: &'a str,
    },
    /// `known TOP SCRIPT FILE..`: prints the three-valued registers of the module TOP behind each cycle of the script's
    /// sequence.
    Known(Input<'a>),
    /// `demo N`: makes a design of N stages, 1 to 60, and checks it.
    Demo(u8),
}
