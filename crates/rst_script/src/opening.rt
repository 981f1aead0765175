// The two lines in front of a script.
ghost use Rattle.std.specs.Prelude.{◌≡◌, Some, None, IfSome, IfNone, option_copied};
ghost use Rattle.rst_script.specs.Lines.{words};
ghost use Rattle.rst_script.specs.Opening.{version_of, clock_of, is_noclock};

use crate::words::{split_pair, split_word};
use rst_lex::is_name;

const HEADER: &[u8] = b"reset-script";

const ONE: &[u8] = b"1";

const TWO: &[u8] = b"2";

const CLOCK: &[u8] = b"clock";

const NO_CLOCK: &[u8] = b"noclock";

// The version that the first line gives.
pub(crate) fn read_version(line: &[u8]) -> Option<u32>
    ensures { result ≡ version_of (words line.now) }
{
    let (word, version) = split_pair(line)?;
    if word != HEADER {
        return None;
    }
    if version == ONE {
        Some(1)
    } else if version == TWO {
        Some(2)
    } else {
        None
    }
}

// Whether the line is the one word `noclock`.
fn is_noclock(line: &[u8]) -> bool
    ensures { result ≡ is_noclock (words line.now) }
{
    match split_word(line) {
        None => false,
        Some((word, rest)) => word == NO_CLOCK && split_word(rest).is_none(),
    }
}

// What the second line says of the clock: its name, or that there is none.
pub(crate) fn read_clock(line: &[u8]) -> Option<Option<&[u8]>>
    ensures found { IfSome result (λ clock. clock_of (words line.now) ≡ Some (option_copied clock)) }
    ensures none { IfNone result (clock_of (words line.now) ≡ None) }
{
    if is_noclock(line) {
        return Some(None);
    }
    let (word, name) = split_pair(line)?;
    if word == CLOCK && is_name(name) {
        Some(Some(name))
    } else {
        None
    }
}
