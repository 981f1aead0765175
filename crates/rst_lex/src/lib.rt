//! From the bytes of a text to tokens, after the lexical conventions of IEEE 1364-2001, section 2.
#![tactic(auto)]

mod bytes;
mod front;
mod laws;
mod lexer;
mod lines;
mod literal;
mod piece;
mod token;
mod words;

pub use laws::{one_reading, some_reading, word_lists};
pub use lexer::{LexFault, lex};
pub use lines::line_of;
pub use token::{Literal, Token, TokenKind};
pub use words::{KEYWORDS, REFUSED_KEYWORDS, is_keyword, is_name};
