// Tokens of texts, and the texts that have none.
use crate::texts::tokens_of;
use rst_lex::{LexFault, TokenKind, is_keyword, is_name, line_of};
use rst_table::{Unlike, agree};
use std::alloc::Global;

// Width, sign, value and mask of a number, or zeros for any other token.
fn number(kind: TokenKind) -> (u8, bool, u64, u64) {
    match kind {
        TokenKind::Number(literal) => (literal.width, literal.signed, literal.value, literal.mask),
        _ => (0, false, 0, 0),
    }
}

fn first_number(alloc: Global, text: &str) -> Option<(u8, bool, u64, u64)> {
    let tokens = tokens_of(alloc, text.as_bytes()).ok()?;
    let first = tokens.first().copied()?;
    Some(number(first.kind))
}

const NUMBERS: &str = "
    8 'hF_f             => (8, false, 255, 0)
    4'b1?               => (4, false, 2, 1)
    1'b1?b              => (1, false, 0, 1)
    3'o?7               => (3, false, 7, 0)
    5'bz                => (5, false, 0, 31)
    'h?                 => (32, false, 0, 4294967295)
    8'd1x               => (8, false, 1, 0)
    2'b012              => (2, false, 1, 0)
    8'SD200             => (8, true, 200, 0)
    64'hFFFFFFFFFFFFFFFF => (64, false, 18446744073709551615, 0)
    4294967297          => (32, true, 1, 0)
    7                   => (32, true, 7, 0)
";

#[test]
fn numbers(rt: HostRuntime) -> Result<(), Unlike> {
    agree(rt.alloc(), NUMBERS, first_number)
}

fn fault_of(alloc: Global, text: &str) -> Option<LexFault> {
    tokens_of(alloc, text.as_bytes()).err()
}

const FAULTS: &str = r#"
    a /* b      => OpenComment(2)
    (* a        => OpenComment(0)
    x 8'q       => BadNumber(2)
    '           => BadNumber(0)
    0'b1        => BadNumber(0)
    4'b_1       => BadNumber(0)
    4'b1X       => BadNumber(0)
    65'bx       => BadNumber(0)
    65'b1       => NumberTooWide(0)
    99999999999999999999'b1 => NumberTooWide(0)
    a $         => BadByte(2)
    "           => BadByte(0)
    `define     => Directive(0)
    `timescalex => Directive(0)
"#;

#[test]
fn faults(rt: HostRuntime) -> Result<(), Unlike> {
    agree(rt.alloc(), FAULTS, fault_of)
}

fn count_of(alloc: Global, text: &str) -> Option<usize> {
    let tokens = tokens_of(alloc, text.as_bytes()).ok()?;
    Some(tokens.len())
}

const COUNTS: &str = r"
    @(*)      => 4
    @( * )    => 4
    (**)      => 0
    (* a ) *) => 0
    `timescale 1ns/1ps\nx => 1
    a//b      => 1
    **/       => 2
    ~&&       => 2
    $$ $1     => 2
    8 /*c*/ 9 => 2
    2'b012    => 2
";

#[test]
fn counts(rt: HostRuntime) -> Result<(), Unlike> {
    agree(rt.alloc(), COUNTS, count_of)
}

// Whether a text is a name, and whether it is a keyword.
fn kind_of_word(_: Global, text: &str) -> Option<(bool, bool)> {
    let bytes = text.as_bytes();
    Some((is_name(bytes), is_keyword(bytes)))
}

const WORDS: &str = "
    module => (false, true)
    xnor   => (false, true)
    Module => (true, false)
    _a$1   => (true, false)
    1a     => (false, false)
           => (false, false)
";

#[test]
fn words(rt: HostRuntime) -> Result<(), Unlike> {
    agree(rt.alloc(), WORDS, kind_of_word)
}

// The line of each byte of a text, and of its end.
fn lines_of(alloc: Global, text: &str) -> Option<Vec<u32>> {
    let bytes = text.as_bytes();
    if bytes.len() > 1_048_576 {
        return None;
    }
    let mut lines = Vec::new(alloc);
    for at in 0..bytes.len() as u32 + 1 {
        lines.push(line_of(bytes, at)).ok()?;
    }
    Some(lines)
}

#[test]
fn lines(rt: HostRuntime) -> Result<(), Unlike> {
    agree(rt.alloc(), r"a\n\nb => [1, 1, 2, 3, 3]", lines_of)
}
