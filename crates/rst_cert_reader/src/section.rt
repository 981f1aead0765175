/// The sections of evidence.
#[derive(Clone, Copy, Debug, PartialEq, Eq)]
pub enum Section {
    /// A sequence whose bits may be free.
    FreeSteps,
    /// A sequence.
    Steps,
    Word,
    Equal,
    StateA,
    StateB,
    Blocked,
    Freed,
    SplitLog,
    LandLog,
    EscapeLog,
    StuckLog,
    Journal,
}
