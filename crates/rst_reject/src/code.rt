// Why an input is refused.

ghost use Rattle.std.specs.Prelude.{◌≡◌};
ghost use Rattle.rst_reject.specs.Codes.{code_name};

/// Why an input is refused. `docs/LANGUAGE.md` and `docs/FORMATS.md` say where each comes.
#[derive(Clone, Copy, Debug, PartialEq, Eq)]
pub enum Code {
    /// No token begins with a byte.
    BadByte,
    /// A comment or an attribute has no end.
    OpenComment,
    /// A based literal is no number.
    BadNumber,
    /// A literal has more than 64 bits.
    NumberTooWide,
    /// A directive that is not read.
    Directive,
    /// A token of the language that the profile refuses.
    Unsupported,
    /// A piece of the text is no module of the grammar, or one of a height above 200.
    NoTree,
    /// Two modules have one name.
    TwoModules,
    /// No module has the name of the top.
    NoTop,
    /// An instance of an unknown module.
    NoModule,
    /// A module reaches itself.
    Recursive,
    /// A name is declared twice.
    Twice,
    /// A port without a direction, or a direction without a port.
    BadPort,
    /// A name is not declared.
    NoName,
    /// A link of a port is unknown, repeated or one too many.
    BadConnect,
    /// A link of a parameter is unknown, repeated, empty or one too many.
    NoParameter,
    /// What must be constant names a signal.
    NotConstant,
    /// A divisor is 0.
    ZeroDivisor,
    /// More than 64 bits.
    TooWide,
    /// A repetition or a join has no bit.
    ZeroWidth,
    /// A select outside its vector, or of a scalar.
    BadSelect,
    /// A variable index can leave its vector.
    MayLeaveRange,
    /// The ends of a range are no range.
    BadRange,
    /// What is set cannot be set so.
    BadTarget,
    /// A link has another width than its port.
    PortWidth,
    /// The clock is no input of one bit of the top.
    ClockMissing,
    /// An event list with edges is no clock, and no clock with a reset.
    Edges,
    /// An edge of another signal than the clock, or the clock read otherwise.
    ClockMisused,
    /// A reset is no input of one bit of the top.
    ResetMisused,
    /// A bit has two drivers, or a register two blocks.
    ManyDrivers,
    /// A bit that is needed has no driver.
    Undriven,
    /// The design passes a limit on its size, its bits or its weight.
    Limit,
    /// A set of the wrong kind.
    Blocking,
    /// An event list leaves out what its block reads.
    Sensitivity,
    /// A block can hold a bit.
    Latch,
    /// A bit is driven on a cycle.
    Loop,
    /// A line of a script or a certificate breaks the grammar.
    BadLine,
    /// A setting comes twice.
    Repeated,
    /// The clock cycles pass 128.
    TooMany,
    /// A step names no input of the design.
    BadName,
    /// A value has more bits than its input.
    BadValue,
    /// The free bits pass 1,024.
    TooFree,
    /// A certificate's first lines break their form.
    BadHeader,
    /// A certificate doesn't end with its last line.
    Cut,
    /// A file is longer than its limit.
    TooLong,
}

impl Code {
    /// The code's word.
    pub fn name(self) -> &'static str
        ensures { result.now ≡ code_name self }
    {
        match self {
            Code::BadByte => "BadByte",
            Code::OpenComment => "OpenComment",
            Code::BadNumber => "BadNumber",
            Code::NumberTooWide => "NumberTooWide",
            Code::Directive => "Directive",
            Code::Unsupported => "Unsupported",
            Code::NoTree => "NoTree",
            Code::TwoModules => "TwoModules",
            Code::NoTop => "NoTop",
            Code::NoModule => "NoModule",
            Code::Recursive => "Recursive",
            Code::Twice => "Twice",
            Code::BadPort => "BadPort",
            Code::NoName => "NoName",
            Code::BadConnect => "BadConnect",
            Code::NoParameter => "NoParameter",
            Code::NotConstant => "NotConstant",
            Code::ZeroDivisor => "ZeroDivisor",
            Code::TooWide => "TooWide",
            Code::ZeroWidth => "ZeroWidth",
            Code::BadSelect => "BadSelect",
            Code::MayLeaveRange => "MayLeaveRange",
            Code::BadRange => "BadRange",
            Code::BadTarget => "BadTarget",
            Code::PortWidth => "PortWidth",
            Code::ClockMissing => "ClockMissing",
            Code::Edges => "Edges",
            Code::ClockMisused => "ClockMisused",
            Code::ResetMisused => "ResetMisused",
            Code::ManyDrivers => "ManyDrivers",
            Code::Undriven => "Undriven",
            Code::Limit => "Limit",
            Code::Blocking => "Blocking",
            Code::Sensitivity => "Sensitivity",
            Code::Latch => "Latch",
            Code::Loop => "Loop",
            Code::BadLine => "BadLine",
            Code::Repeated => "Repeated",
            Code::TooMany => "TooMany",
            Code::BadName => "BadName",
            Code::BadValue => "BadValue",
            Code::TooFree => "TooFree",
            Code::BadHeader => "BadHeader",
            Code::Cut => "Cut",
            Code::TooLong => "TooLong",
        }
    }
}
