// The parts of a line.
ghost use Rattle.std.specs.Prelude.{◌≡◌, ◌+◌, ◌≤◌, ◌<◌, ◌++◌, map, length};
ghost use Rattle.std.specs.List.{flat_map};
ghost use Rattle.rst_certificate.specs.Words.{digit, place_digit, literal_text};
ghost use Rattle.rst_certificate.specs.Atoms.{atom_text, rest_text, atom_work, rest_work};

use crate::piece::Piece;
use rst_clause::Lit;
use rst_value::Tern;

// A part of a line, of the certificate that it shows.
#[derive(Clone, Copy)]
pub(crate) enum Atom<'a> {
    // These bytes.
    Word(&'a [u8]),
    // A number in decimal digits.
    Number(u64),
    // A digit 0 or 1 a bit.
    Digits(&'a [bool]),
    // A digit 0, 1 or - a place.
    Places(&'a [Tern]),
    // Each literal, and a space behind it.
    Literals(&'a [Lit]),
}

fn move_word<'a>(bytes: &'a [u8], piece: &mut Piece) -> Option<Atom<'a>>
    requires { length piece.old + 41 ≤ 65536 }
    ensures moved { piece.new ++ rest_text result ≡ piece.old ++ bytes.now }
    ensures work { rest_work result ≤ length bytes.now }
{
    let count = bytes.len().min(piece.room());
    let (front, rest) = bytes.split_at(count);
    piece.put(front);
    if rest.is_empty() {
        None
    } else {
        Some(Atom::Word(rest))
    }
}

fn move_digits<'a>(bits: &'a [bool], piece: &mut Piece) -> Option<Atom<'a>>
    requires { length piece.old + 41 ≤ 65536 }
    ensures moved { piece.new ++ rest_text result ≡ piece.old ++ map digit bits.now }
    ensures work { rest_work result ≤ length bits.now }
{
    let count = bits.len().min(piece.room());
    let (front, rest) = bits.split_at(count);
    piece.put_digits(front);
    if rest.is_empty() {
        None
    } else {
        Some(Atom::Digits(rest))
    }
}

fn move_places<'a>(places: &'a [Tern], piece: &mut Piece) -> Option<Atom<'a>>
    requires { length piece.old + 41 ≤ 65536 }
    ensures moved { piece.new ++ rest_text result ≡ piece.old ++ map place_digit places.now }
    ensures work { rest_work result ≤ length places.now }
{
    let count = places.len().min(piece.room());
    let (front, rest) = places.split_at(count);
    piece.put_places(front);
    if rest.is_empty() {
        None
    } else {
        Some(Atom::Places(rest))
    }
}

fn move_literal<'a>(literals: &'a [Lit], piece: &mut Piece) -> Option<Atom<'a>>
    requires { length piece.old + 41 ≤ 65536 }
    ensures moved { piece.new ++ rest_text result ≡ piece.old ++ flat_map literal_text literals.now }
    ensures work { rest_work result ≤ length (flat_map literal_text literals.now) }
{
    match literals.split_first() {
        None => None,
        Some((first, rest)) => {
            piece.put_literal(*first);
            Some(Atom::Literals(rest))
        }
    }
}

// Moves bytes from the atom's front to the end of the piece, and answers what is left of the atom.
pub(crate) fn move_atom<'a>(atom: Atom<'a>, piece: &mut Piece) -> Option<Atom<'a>>
    requires { length piece.old + 41 ≤ 65536 }
    ensures moved { piece.new ++ rest_text result ≡ piece.old ++ atom_text atom.entry }
    ensures work { rest_work result < atom_work atom.entry }
{
    match atom {
        Atom::Word(bytes) => move_word(bytes, piece),
        Atom::Number(number) => {
            piece.put_number(number);
            None
        }
        Atom::Digits(bits) => move_digits(bits, piece),
        Atom::Places(places) => move_places(places, piece),
        Atom::Literals(literals) => move_literal(literals, piece),
    }
}
