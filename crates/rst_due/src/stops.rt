// What is due where a step stops.
ghost use Rattle.std.specs.Prelude.{◌≡◌, IfOk, map, string_bytes};
ghost use Rattle.rst_reject.specs.Rejects.{at_line};
ghost use Rattle.rst_reject.specs.declared.code.Code.TheVariants as code;
ghost use Rattle.rst_reject.specs.declared.reject.Reject.{Reject as Reject_};
ghost use Rattle.rst_reject.specs.declared.stop.Stop.TheVariants.{Rejected};
ghost use Rattle.rst_answer.specs.Answers.{plain_due, refused_due, CertFits};
ghost use Rattle.rst_due.specs.Due.{LoadStops};

use rst_answer::{Ready, refused, unread};
use rst_outside::{Name, NoMemory};
use rst_reject::{Code, Reject, Stop};
use std::alloc::Global;

// The refusal of a file that is longer than its limit.
fn too_long(alloc: Global, place: u16) -> Result<Reject, NoMemory>
    ensures { IfOk result (λ r. r ≡ at_line code.TooLong place 0) }
{
    Ok(Reject {
        code: Code::TooLong,
        file: Some(place),
        name: Name::new(alloc, b"")?,
        number: 0,
    })
}

/// What is due where the loads stopped.
pub(crate) fn load_stopped(
    alloc: Global,
    words: &[String],
    stop: rst_loads::Stop,
) -> Result<Ready, NoMemory>
    ensures due { IfOk result (λ ready. LoadStops (map string_bytes words.now) stop (plain_due ready)) }
    ensures fits { IfOk result CertFits }
{
    match stop {
        rst_loads::Stop::Unread(place) => unread(alloc, words, place),
        rst_loads::Stop::TooLong(place) => {
            let reject = too_long(alloc, place)?;
            refused(alloc, words, reject)
        }
        rst_loads::Stop::NoMemory => Err(NoMemory),
    }
}

/// What is due where the question was refused.
pub(crate) fn question_stopped(
    alloc: Global,
    words: &[String],
    stop: Stop,
) -> Result<Ready, NoMemory>
    ensures due { IfOk result (λ ready. (r : Reject_) × (stop ≡ Rejected r) × (plain_due ready ≡ refused_due (map string_bytes words.now) r)) }
    ensures fits { IfOk result CertFits }
{
    match stop {
        Stop::Rejected(reject) => refused(alloc, words, reject),
        Stop::NoMemory => Err(NoMemory),
    }
}
