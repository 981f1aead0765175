// A piece of a text under way.
ghost use Rattle.std.specs.Prelude.{◌≡◌, ◌+◌, ◌≤◌, [], ◌∷◌, ◌++◌, map, length, IfOk};
ghost use Rattle.std.specs.Fmt.{decimal};
ghost use Rattle.rst_certificate.specs.Words.{digit, place_digit, literal_text};

use rst_clause::Lit;
use rst_outside::NoMemory;
use rst_value::Tern;
use std::alloc::Global;
use std::marker::Model;

/// How many bytes a piece has at most.
pub(crate) const PIECE_BYTES: usize = 65_536;

/// At most 65,536 bytes, in memory that was taken for all of them at once. Contracts see the bytes.
#[derive(Drop)]
pub(crate) struct Piece {
    bytes: Vec<u8>,
}

impl Model for Piece {
    ghost use Rattle.std.specs.Prelude.{List, ℕ, ◌≤◌, vec_len, vec_capacity};

    ghost Value = { List ℕ };

    ghost view = { λ piece. piece.bytes.items };

    ghost invariant = { λ piece. (vec_len piece.bytes ≤ 65536) × (65536 ≤ vec_capacity piece.bytes) };
}

impl Piece {
    pub(crate) fn new(alloc: Global) -> Result<Piece, NoMemory>
        ensures { IfOk result (λ piece. piece ≡ []) }
    {
        Ok(Piece {
            bytes: Vec::with_capacity(alloc, PIECE_BYTES)?,
        })
    }

    pub(crate) fn clear(&mut self)
        ensures { self.new ≡ [] }
    {
        self.bytes.clear();
    }

    // How many more bytes fit.
    pub(crate) fn room(&self) -> usize
        ensures { result + length self.now ≡ 65536 }
    {
        PIECE_BYTES - self.bytes.len()
    }

    pub(crate) fn put(&mut self, bytes: &[u8])
        requires { length self.old + length bytes.now ≤ 65536 }
        ensures { self.new ≡ self.old ++ bytes.now }
    {
        let _ = self.bytes.extend_from_slice(bytes);
    }

    pub(crate) fn put_byte(&mut self, byte: u8)
        requires { length self.old + 1 ≤ 65536 }
        ensures { self.new ≡ self.old ++ byte ∷ [] }
    {
        let _ = self.bytes.push(byte);
    }

    // The number in decimal digits, at most 40 of them.
    pub(crate) fn put_number(&mut self, number: u64)
        requires { length self.old + 40 ≤ 65536 }
        ensures { self.new ≡ self.old ++ decimal number }
    {
        let mut buffer = itoa::Buffer::new();
        self.put(buffer.format(number).as_bytes());
    }

    // A literal and a space, at most 41 bytes.
    pub(crate) fn put_literal(&mut self, literal: Lit)
        requires { length self.old + 41 ≤ 65536 }
        ensures text { self.new ≡ self.old ++ literal_text literal }
        ensures more { length self.old + 1 ≤ length self.new }
    {
        let mut buffer = itoa::Buffer::new();
        self.put(buffer.format(literal.number()).as_bytes());
        self.put_byte(b' ');
    }

    pub(crate) fn put_digits(&mut self, bits: &[bool])
        requires { length self.old + length bits.now ≤ 65536 }
        ensures { self.new ≡ self.old ++ map digit bits.now }
    {
        for bit in bits {
            self.put_byte(if *bit { b'1' } else { b'0' });
        }
    }

    pub(crate) fn put_places(&mut self, places: &[Tern])
        requires { length self.old + length places.now ≤ 65536 }
        ensures { self.new ≡ self.old ++ map place_digit places.now }
    {
        for place in places {
            self.put_byte(place_digit(*place));
        }
    }

    pub(crate) fn as_slice(&self) -> &[u8]
        ensures { result.now ≡ self.now }
    {
        self.bytes.as_slice()
    }
}

fn place_digit(place: Tern) -> u8
    ensures { result ≡ place_digit place }
{
    match place {
        Tern::Zero => b'0',
        Tern::One => b'1',
        Tern::Unknown => b'-',
    }
}
