// What is left of a line.
ghost use Rattle.std.specs.Prelude.{◌≡◌, ◌↔◌, ◌<◌, ◌≤◌, ◌^◌, ◌≢◌, [], None, Ok, Some, List, MatchResult, map, length, take, drop, IfOk, IfErr, OnErr, IsTrue, IfSome, IfNone, ℕ};
ghost use Rattle.std.specs.List.{list_all};
ghost use Rattle.std.specs.Fmt.{decimal};
ghost use Rattle.rst_cert_lines.specs.Reading.{Gives, after, is_bit, bit_of, bits_at, is_place, place_of, places_at, word_of, number_at, positive_at, negative_at, literal_at, one_at, literals_behind};

use rst_clause::{Clause, Lit};
use rst_gate::{Bits, Cube};
use rst_outside::NoMemory;
use rst_value::Tern;
use std::alloc::{AllocError, AllocFailed, Global};
use std::marker::Model;

/// Why a line isn't read.
#[derive(Clone, Copy, Debug, PartialEq, Eq)]
pub enum LineFault {
    /// The line isn't one that certificates have at its place.
    Wrong,
    /// Memory ran out.
    NoMemory,
}

impl From<NoMemory> for LineFault {
    ghost use Rattle.std.specs.Prelude.{◌≡◌};
    ghost use Rattle.rst_cert_lines.specs.declared.cursor.LineFault.TheVariants as faults;

    ghost from_gives = { λ _ e. e ≡ faults.NoMemory };

    fn from(_: NoMemory) -> LineFault {
        LineFault::NoMemory
    }
}

/// What is left of a line. Contracts see its bytes.
#[derive(Drop)]
pub struct Cursor<'a> {
    rest: &'a [u8],
}

impl<'a> Model for Cursor<'a> {
    ghost use Rattle.std.specs.Prelude.{List, ℕ};

    ghost Value = { List ℕ };

    ghost view = { λ it. it.rest.now };
}

impl<'a> Cursor<'a> {
    /// The whole line.
    pub fn new(line: &'a [u8]) -> Cursor<'a>
        ensures { result ≡ line.now }
    {
        Cursor { rest: line }
    }

    /// Goes behind these bytes.
    #[tactic(auto, unfolding(crate::specs::Reading::after))]
    pub fn after(&mut self, word: &[u8]) -> Result<(), LineFault>
        ensures read { Gives (after word.now self.old) result self.new }
        ensures kept { OnErr result (self.new ≡ self.old) }
        ensures wrong { IfErr result (λ fault. fault ≡ LineFault.Wrong) }
    {
        let rest = self.rest;
        if rest.len() < word.len() {
            return Err(LineFault::Wrong);
        }
        let (front, rest) = rest.split_at(word.len());
        if front != word {
            return Err(LineFault::Wrong);
        }
        self.rest = rest;
        Ok(())
    }

    /// Whether nothing is left.
    pub fn is_at_end(&self) -> bool
        ensures { IsTrue result ↔ (self.now ≡ []) }
    {
        self.rest.is_empty()
    }

    /// What is left.
    pub fn rest(&self) -> &'a [u8]
        ensures { result.now ≡ self.now }
    {
        self.rest
    }

    /// How many bytes are left.
    pub fn len(&self) -> usize
        ensures { result ≡ length self.now }
    {
        self.rest.len()
    }

    /// Reads so many digits of bits.
    #[tactic(auto, using(crate::proofs::Fronts::bits_front), unfolding(crate::specs::Reading::bits_at))]
    pub fn bits(&mut self, alloc: Global, count: usize) -> Result<Bits, LineFault>
        ensures { Gives (bits_at count self.old) result self.new }
    {
        let rest = self.rest;
        if rest.len() < count {
            return Err(LineFault::Wrong);
        }
        let (digits, rest) = rest.split_at(count);
        if !are_bits(digits) {
            return Err(LineFault::Wrong);
        }
        let bits = bits_of(alloc, digits)?;
        self.rest = rest;
        Ok(bits)
    }

    /// Reads so many digits of places, `-` for either bit among them.
    #[tactic(auto, using(crate::proofs::Fronts::places_front), unfolding(crate::specs::Reading::places_at))]
    pub fn places(&mut self, alloc: Global, count: usize) -> Result<Cube, LineFault>
        ensures { Gives (places_at count self.old) result self.new }
    {
        let rest = self.rest;
        if rest.len() < count {
            return Err(LineFault::Wrong);
        }
        let (digits, rest) = rest.split_at(count);
        if !are_places(digits) {
            return Err(LineFault::Wrong);
        }
        let places = places_of(alloc, digits)?;
        self.rest = rest;
        Ok(places)
    }

    /// Reads a number below 2^64 in decimal digits, without leading zeros, up to a space or the end.
    #[tactic(auto, using(crate::proofs::Fronts::number_front), unfolding(crate::specs::Reading::number_at))]
    pub fn number(&mut self) -> Result<u64, LineFault>
        ensures { Gives (number_at self.old) result self.new }
    {
        let rest = self.rest;
        let (word, rest) = rest.split_at(word_len(rest));
        match number_of(word) {
            None => Err(LineFault::Wrong),
            Some(number) => {
                self.rest = rest;
                Ok(number)
            }
        }
    }

    // The number of a literal's variable, behind its minus.
    #[tactic(auto, unfolding(crate::specs::Reading::negative_at))]
    fn negative(&mut self) -> Result<Lit, LineFault>
        ensures { Gives (negative_at self.old) result self.new }
    {
        let number = self.number()?;
        if 0 < number && number <= 2_147_483_648 {
            Ok(Lit::new(-(number as i64) as i32))
        } else {
            Err(LineFault::Wrong)
        }
    }

    // The number of a literal's variable.
    #[tactic(auto, unfolding(crate::specs::Reading::positive_at))]
    fn positive(&mut self) -> Result<Lit, LineFault>
        ensures { Gives (positive_at self.old) result self.new }
    {
        let number = self.number()?;
        if 0 < number && number < 2_147_483_648 {
            Ok(Lit::of_variable(number as u32))
        } else {
            Err(LineFault::Wrong)
        }
    }

    /// Reads a literal, up to a space or the end.
    #[tactic(auto, unfolding(crate::specs::Reading::literal_at))]
    pub fn literal(&mut self) -> Result<Lit, LineFault>
        ensures { Gives (literal_at self.old) result self.new }
    {
        match self.after(b"-") {
            Ok(()) => self.negative(),
            Err(_) => self.positive(),
        }
    }

    // A literal and the space behind it, or the 0 that ends a clause.
    #[tactic(auto, unfolding(crate::specs::Reading::one_at))]
    fn next_literal(&mut self) -> Result<Option<Lit>, LineFault>
        ensures { Gives (one_at self.old) result self.new }
    {
        if self.rest == b"0".as_slice() {
            self.rest = b"";
            return Ok(None);
        }
        let literal = self.literal()?;
        self.after(b" ")?;
        Ok(Some(literal))
    }

    /// Reads the rest of a clause: literals with a space behind each, and then 0, the last byte.
    pub fn literals(&mut self, alloc: Global) -> Result<Clause, LineFault>
        ensures { Gives (literals_behind (length self.old) [] self.old) result self.new }
    {
        let mut clause = Clause::new(alloc);
        for _ in 0..self.rest.len() {
            match self.next_literal()? {
                None => return Ok(clause),
                Some(literal) => clause.push(literal)?,
            }
        }
        Err(LineFault::Wrong)
    }
}

// How many bytes stand before a space or the end.
fn word_len(text: &[u8]) -> usize
    ensures count { result ≡ length (word_of text.now) }
    ensures within { result ≤ length text.now }
    ensures word { take result text.now ≡ word_of text.now }
{
    let mut at = 0;
    while at < text.len() && text[at] != b' ' {
        at += 1;
    }
    at
}

// A number that a word may have the digits of: the one, where it has those of a number below 2^64.
fn likely_number(word: &[u8]) -> Option<u64>
    ensures { (number : ℕ) → number < 2 ^ 64 → decimal number ≡ word.now → result ≡ Some number }
{
    match std::str::from_utf8(word) {
        Err(_) => None,
        Ok(text) => match text.parse::<u64>() {
            Err(_) => None,
            Ok(number) => Some(number),
        },
    }
}

// Whether the word has the decimal digits of the number.
fn writes(number: u64, word: &[u8]) -> bool
    ensures { IsTrue result ↔ (decimal number ≡ word.now) }
{
    let mut buffer = itoa::Buffer::new();
    let digits = buffer.format(number).as_bytes();
    digits == word
}

// The number below 2^64 whose decimal digits the word has.
fn number_of(word: &[u8]) -> Option<u64>
    ensures found { IfSome result (λ number. decimal number ≡ word.now) }
    ensures none { IfNone result ((number : ℕ) → number < 2 ^ 64 → decimal number ≢ word.now) }
{
    match likely_number(word) {
        Some(number) if writes(number, word) => Some(number),
        _ => None,
    }
}

fn is_bit(digit: u8) -> bool
    ensures { result ≡ is_bit digit }
{
    digit == b'0' || digit == b'1'
}

fn is_place(digit: u8) -> bool
    ensures { result ≡ is_place digit }
{
    digit == b'0' || digit == b'1' || digit == b'-'
}

fn are_bits(digits: &[u8]) -> bool
    ensures { result ≡ list_all is_bit digits.now }
{
    digits.iter().all(|digit| is_bit(*digit))
}

fn are_places(digits: &[u8]) -> bool
    ensures { result ≡ list_all is_place digits.now }
{
    digits.iter().all(|digit| is_place(*digit))
}

fn bits_of(alloc: Global, digits: &[u8]) -> Result<Bits, NoMemory>
    ensures { IfOk result (λ bits. bits ≡ map bit_of digits.now) }
{
    let mut bits = Bits::new(alloc);
    for digit in digits {
        bits.push(*digit == b'1')?;
    }
    Ok(bits)
}

fn place_of(digit: u8) -> Tern
    ensures { result ≡ place_of digit }
{
    if digit == b'0' {
        Tern::Zero
    } else if digit == b'1' {
        Tern::One
    } else {
        Tern::Unknown
    }
}

fn places_of(alloc: Global, digits: &[u8]) -> Result<Cube, NoMemory>
    ensures { IfOk result (λ places. places ≡ map place_of digits.now) }
{
    let mut places = Cube::new(alloc);
    for digit in digits {
        places.push(place_of(*digit))?;
    }
    Ok(places)
}
