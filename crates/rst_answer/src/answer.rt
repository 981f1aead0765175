// How a run ends.
ghost use Rattle.std.specs.Prelude.{◌≡◌, None};
ghost use Rattle.rst_answer.specs.Answers.{number_of, status_of, outcome_of, fault_of, no_memory};

use rst_reject::Reject;
use rst_verdict::Verdict;

/// How a run ended.
#[derive(Clone, Copy, Debug, PartialEq, Eq)]
pub enum Status {
    /// The pattern is an essential reset sequence of the design, however its free bits are filled.
    Signed,
    /// The rows that were asked for are put.
    Shown,
    /// The words spell no command.
    Usage,
    /// A file could not be read.
    ReadFault,
    /// The certificate could not be saved, or the text could not be put.
    WriteFault,
    /// The input was refused.
    Rejected,
    /// Memory ran out. Nothing was saved or put.
    NoMemory,
    /// The pattern is no essential reset sequence of the design: behind a filling of it two power-up states give different outputs.
    Refuted,
    /// No sequence aligns two of the design's power-up states.
    NonResettable,
    /// The design is resettable, but no sequence was built within the bound of cycles.
    Alignable,
    /// The budget was spent before anything was found.
    Unknown,
}

impl Status {
    /// The exit status of a program that ends so.
    pub fn number(&self) -> u8
        ensures { result ≡ number_of self.now }
    {
        match self {
            Status::Signed | Status::Shown => 0,
            Status::Usage => 2,
            Status::ReadFault => 3,
            Status::WriteFault => 4,
            Status::Rejected => 5,
            Status::NoMemory => 6,
            Status::Refuted => 10,
            Status::NonResettable => 11,
            Status::Alignable => 12,
            Status::Unknown => 13,
        }
    }

    // The status of a verdict.
    fn of(verdict: &Verdict) -> Status
        ensures { result ≡ status_of verdict.now }
    {
        match verdict {
            Verdict::SignedKnown { .. } | Verdict::SignedRelation { .. } => Status::Signed,
            Verdict::Refuted { .. } => Status::Refuted,
            Verdict::Never { .. } => Status::NonResettable,
            Verdict::Alignable { .. } => Status::Alignable,
            Verdict::Unknown { .. } => Status::Unknown,
        }
    }
}

/// What a run ended with.
#[derive(Drop)]
pub struct Outcome {
    /// How the run ended.
    pub status: Status,
    /// The verdict, where one is due, also where a write failed.
    pub verdict: Option<Verdict>,
    /// The refusal, where one is due, also where a write failed.
    pub reject: Option<Reject>,
    /// The place of the word whose load failed, where one did, also where a write failed.
    pub unread: Option<u16>,
}

/// The answer that is due before anything is written.
#[derive(Drop)]
pub enum Answer {
    /// The words spell no command.
    NoCommand,
    /// The load of the word at this place failed.
    Unread(u16),
    /// The input is refused.
    Refused(Reject),
    /// Rows are shown.
    Shown,
    /// The verdict on a pattern.
    Decided(Verdict),
}

impl Answer {
    /// The outcome where all was written.
    pub fn outcome(self) -> Outcome
        ensures { result ≡ outcome_of self }
    {
        match self {
            Answer::NoCommand => plain_outcome(Status::Usage),
            Answer::Unread(place) => Outcome {
                status: Status::ReadFault,
                verdict: None,
                reject: None,
                unread: Some(place),
            },
            Answer::Refused(reject) => Outcome {
                status: Status::Rejected,
                verdict: None,
                reject: Some(reject),
                unread: None,
            },
            Answer::Shown => plain_outcome(Status::Shown),
            Answer::Decided(verdict) => Outcome {
                status: Status::of(&verdict),
                verdict: Some(verdict),
                reject: None,
                unread: None,
            },
        }
    }

    /// The outcome where a write failed.
    pub fn fault(self) -> Outcome
        ensures { result ≡ fault_of self }
    {
        Outcome {
            status: Status::WriteFault,
            ..self.outcome()
        }
    }
}

// The outcome that keeps nothing.
fn plain_outcome(status: Status) -> Outcome
    ensures { result ≡ record { status = status; verdict = None; reject = None; unread = None } }
{
    Outcome {
        status,
        verdict: None,
        reject: None,
        unread: None,
    }
}

impl Outcome {
    /// The outcome where memory ran out.
    pub fn no_memory() -> Outcome
        ensures { result ≡ no_memory }
    {
        plain_outcome(Status::NoMemory)
    }
}
