// What stands at the front of a text.
ghost use Rattle.std.specs.Prelude.{◌≡◌, ◌≤◌, ◌<◌, ◌+◌, ◌^◌, length, IfSome};
ghost use Rattle.std.specs.List.{prefix_len};
ghost use Rattle.rst_lex.specs.Bytes.{is_space, is_decimal_byte};
ghost use Rattle.rst_lex.specs.Gaps.{is_in_line, closes_next, is_skipped_directive};
ghost use Rattle.rst_lex.specs.Numbers.{is_digit_behind};
ghost use Rattle.rst_lex.specs.Fronts.{closes, close_len, slash_front, bracket_front, directive_front, system_front, begins_digits, letter_front, tail_front, based_front, number_front, mark_front, text_front};

use crate::bytes::{
    is_decimal_byte, is_digit, is_digit_behind, is_name_start, is_space, mark_len, name_len,
};

/// Why no token can be read.
#[derive(Clone, Copy)]
pub(crate) enum Cause {
    BadByte,
    OpenComment,
    BadNumber,
    NumberTooWide,
    Directive,
}

// How many bytes each part of a based literal has behind its '.
#[derive(Clone, Copy)]
pub(crate) struct Tail {
    pub(crate) sign: usize,
    pub(crate) letter: u8,
    pub(crate) space: usize,
    pub(crate) digits: usize,
}

#[derive(Clone, Copy)]
pub(crate) enum Front {
    Gap(usize),
    Word(usize),
    System(usize),
    Decimal(usize),
    Based(usize, usize, Tail),
    Mark(usize),
    Fault(Cause),
}

fn line_len(text: &[u8]) -> usize
    ensures value { result ≡ prefix_len is_in_line text.now }
    ensures within { result ≤ length text.now }
{
    text.iter().take_while(|b| **b != b'\n').count()
}

pub(crate) fn space_len(text: &[u8]) -> usize
    ensures value { result ≡ prefix_len is_space text.now }
    ensures within { result ≤ length text.now }
{
    text.iter().take_while(|b| is_space(**b)).count()
}

fn decimal_len(text: &[u8]) -> usize
    ensures value { result ≡ prefix_len is_decimal_byte text.now }
    ensures within { result ≤ length text.now }
{
    text.iter().take_while(|b| is_decimal_byte(**b)).count()
}

fn digits_len(letter: u8, text: &[u8]) -> usize
    ensures value { result ≡ prefix_len (is_digit_behind letter) text.now }
    ensures within { result ≤ length text.now }
{
    text.iter()
        .take_while(|b| is_digit_behind(letter, **b))
        .count()
}

fn closes(x: u8, y: u8, a: u8, b: u8) -> bool
    ensures { result ≡ closes x y a b }
{
    a == x && b == y
}

// How many bytes reach up to the first place where x and y stand side by side.
fn close_len(x: u8, y: u8, text: &[u8]) -> Option<usize>
    ensures value { result ≡ close_len x y text.now }
    ensures within { IfSome result (λ n. n ≤ length text.now) }
{
    for i in 1..text.len() {
        if closes(x, y, text[i - 1], text[i]) {
            return Some(i + 1);
        }
    }
    None
}

#[tactic(auto, unfolding(crate::specs::Fronts::slash_front))]
fn slash_front(rest: &[u8]) -> Front
    requires { length rest.now < 2 ^ 32 }
    ensures { result ≡ slash_front rest.now }
{
    match rest {
        [b'/', line @ ..] => Front::Gap(2 + line_len(line)),
        [b'*', block @ ..] => match close_len(b'*', b'/', block) {
            Some(n) => Front::Gap(2 + n),
            None => Front::Fault(Cause::OpenComment),
        },
        _ => Front::Mark(1),
    }
}

fn closes_next(text: &[u8]) -> bool
    ensures { result ≡ closes_next text.now }
{
    let (_, rest) = text.split_at(space_len(text));
    match rest {
        [b, ..] => *b == b')',
        [] => false,
    }
}

#[tactic(auto, unfolding(crate::specs::Fronts::bracket_front))]
fn bracket_front(rest: &[u8]) -> Front
    requires { length rest.now < 2 ^ 32 }
    ensures { result ≡ bracket_front rest.now }
{
    match rest {
        [b'*', attribute @ ..] if !closes_next(attribute) => match close_len(
            b'*', b')', attribute,
        ) {
            Some(n) => Front::Gap(2 + n),
            None => Front::Fault(Cause::OpenComment),
        },
        _ => Front::Mark(1),
    }
}

fn is_skipped_directive(rest: &[u8]) -> bool
    ensures { result ≡ is_skipped_directive rest.now }
{
    let word = &rest[..name_len(rest)];
    word == b"timescale".as_slice() || word == b"default_nettype".as_slice()
}

#[tactic(auto, unfolding(crate::specs::Fronts::directive_front))]
fn directive_front(rest: &[u8]) -> Front
    requires { length rest.now < 2 ^ 32 }
    ensures { result ≡ directive_front rest.now }
{
    if is_skipped_directive(rest) {
        Front::Gap(1 + line_len(rest))
    } else {
        Front::Fault(Cause::Directive)
    }
}

#[tactic(auto, unfolding(crate::specs::Fronts::system_front))]
fn system_front(rest: &[u8]) -> Front
    requires { length rest.now < 2 ^ 32 }
    ensures { result ≡ system_front rest.now }
{
    let n = name_len(rest);
    if n == 0 {
        Front::Fault(Cause::BadByte)
    } else {
        Front::System(1 + n)
    }
}

fn begins_digits(letter: u8, text: &[u8]) -> bool
    ensures { result ≡ begins_digits letter text.now }
{
    match text {
        [] => false,
        [b, ..] => is_digit_behind(letter, *b) && *b != b'_',
    }
}

#[tactic(auto, unfolding(crate::specs::Fronts::letter_front))]
fn letter_front(sign: usize, text: &[u8]) -> Option<Tail>
    ensures { result ≡ letter_front sign text.now }
{
    let [letter, rest @ ..] = text else {
        return None;
    };
    let space = space_len(rest);
    let (_, digits) = rest.split_at(space);
    if begins_digits(*letter, digits) {
        Some(Tail {
            sign,
            letter: *letter,
            space,
            digits: digits_len(*letter, digits),
        })
    } else {
        None
    }
}

#[tactic(auto, unfolding(crate::specs::Fronts::tail_front))]
fn tail_front(more: &[u8]) -> Option<Tail>
    ensures { result ≡ tail_front more.now }
{
    match more {
        [b's' | b'S', rest @ ..] => letter_front(1, rest),
        _ => letter_front(0, more),
    }
}

#[tactic(auto, unfolding(crate::specs::Fronts::based_front))]
fn based_front(size: usize, gap: usize, more: &[u8]) -> Front
    ensures { result ≡ based_front size gap more.now }
{
    match tail_front(more) {
        Some(tail) => Front::Based(size, gap, tail),
        None => Front::Fault(Cause::BadNumber),
    }
}

#[tactic(auto, unfolding(crate::specs::Fronts::number_front))]
fn number_front(rest: &[u8]) -> Front
    requires { length rest.now < 2 ^ 32 }
    ensures { result ≡ number_front rest.now }
{
    let size = decimal_len(rest);
    let (_, behind) = rest.split_at(size);
    let gap = space_len(behind);
    let (_, next) = behind.split_at(gap);
    match next {
        [b'\'', more @ ..] => based_front(1 + size, gap, more),
        _ => Front::Decimal(1 + size),
    }
}

#[tactic(auto, unfolding(crate::specs::Fronts::mark_front))]
fn mark_front(text: &[u8]) -> Front
    ensures { result ≡ mark_front text.now }
{
    let n = mark_len(text);
    if n == 0 {
        Front::Fault(Cause::BadByte)
    } else {
        Front::Mark(n)
    }
}

#[tactic(auto, unfolding(crate::specs::Fronts::text_front))]
pub(crate) fn text_front(text: &[u8]) -> Front
    requires { length text.now < 2 ^ 32 }
    ensures { result ≡ text_front text.now }
{
    let [first, rest @ ..] = text else {
        return Front::Fault(Cause::BadByte);
    };
    if is_space(*first) {
        Front::Gap(1)
    } else if is_name_start(*first) {
        Front::Word(1 + name_len(rest))
    } else if *first == b'/' {
        slash_front(rest)
    } else if *first == b'(' {
        bracket_front(rest)
    } else if is_digit(*first) {
        number_front(rest)
    } else if *first == b'\'' {
        based_front(0, 0, rest)
    } else if *first == b'$' {
        system_front(rest)
    } else if *first == b'`' {
        directive_front(rest)
    } else {
        mark_front(text)
    }
}
