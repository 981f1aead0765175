// Faults of a text: of its tokens and of its trees.

ghost use Rattle.std.specs.Prelude.{◌≡◌, ◌≤◌, ◌<◌, length, slice_get, Some, Ok, IfSome};
ghost use Rattle.rst_lex.specs.Lexing.{Reads, place_of};
ghost use Rattle.rst_parse.specs.Parsing.{NamesToken};
ghost use Rattle.rst_reject.specs.Rejects.{IfRejected};
ghost use Rattle.rst_causes.specs.Causes.{lexing_reject, refused_token, no_module, parsing_reject};

use rst_lex::{LexFault, Token, line_of};
use rst_parse::ParseFault;
use rst_reject::{Code, Stop};
use std::alloc::Global;

/// The refusal of a file whose text has this fault: at the line where the faulty thing begins.
pub fn lexing_stop(alloc: Global, file: u16, text: &[u8], fault: LexFault) -> Stop
    requires short { length text.now ≤ 1048576 }
    requires inside { IfSome (place_of fault) (λ at. at < length text.now) }
    ensures { IfRejected result (λ r. lexing_reject file text.now fault ≡ Some r) }
{
    let (code, at) = match fault {
        LexFault::BadByte(at) => (Code::BadByte, at),
        LexFault::OpenComment(at) => (Code::OpenComment, at),
        LexFault::BadNumber(at) => (Code::BadNumber, at),
        LexFault::NumberTooWide(at) => (Code::NumberTooWide, at),
        LexFault::Directive(at) => (Code::Directive, at),
        LexFault::NoMemory => return Stop::NoMemory,
    };
    Stop::at_line(alloc, code, file, line_of(text, at))
}

// The refusal at a token that is refused.
fn token_stop(alloc: Global, file: u16, text: &[u8], token: Token) -> Stop
    requires short { length text.now ≤ 1048576 }
    requires from { token.start ≤ token.end }
    requires to { token.end ≤ length text.now }
    ensures { IfRejected result (λ r. r ≡ refused_token file text.now token) }
{
    let name = &text[token.start as usize..token.end as usize];
    let line = line_of(text, token.start);
    Stop::at_name(alloc, Code::Unsupported, file, name, line)
}

// The refusal of a piece of a text that begins with this token.
fn piece_stop(alloc: Global, file: u16, text: &[u8], first: Token) -> Stop
    requires short { length text.now ≤ 1048576 }
    requires inside { first.start ≤ length text.now }
    ensures { IfRejected result (λ r. r ≡ no_module file text.now first) }
{
    Stop::at_line(alloc, Code::NoTree, file, line_of(text, first.start))
}

/// The refusal of a file whose tokens have this fault: at the line of the refused token, with its text, or at the line of the first
/// token of the piece that is no module.
#[tactic(auto, using(crate::proofs::Tokens::places))]
pub fn parsing_stop(
    alloc: Global,
    file: u16,
    text: &[u8],
    tokens: &[Token],
    fault: ParseFault,
) -> Stop
    requires short { length text.now ≤ 1048576 }
    requires read { Reads text.now (Ok tokens.now) }
    requires place { NamesToken (length tokens.now) fault }
    ensures { IfRejected result (λ r. parsing_reject file text.now tokens.now fault ≡ Some r) }
{
    match fault {
        ParseFault::Unsupported(i) => token_stop(alloc, file, text, tokens[i as usize]),
        ParseFault::NoTree(i) => piece_stop(alloc, file, text, tokens[i as usize]),
        ParseFault::NoMemory => Stop::NoMemory,
    }
}
