// A line under way.
ghost use Rattle.std.specs.Prelude.{◌≡◌, ◌+◌, ◌≤◌, ◌<◌, [], ◌++◌, length, IfOk};
ghost use Rattle.std.specs.Bool.{OnTrue, OnFalse};
ghost use Rattle.rst_certificate.specs.Atoms.{atom_text, line_state, Adds, line_work};

use crate::atom::{Atom, move_atom};
use crate::piece::Piece;
use rst_outside::NoMemory;
use std::alloc::Global;
use std::marker::Model;

/// How many atoms a line has at most.
const MOST_ATOMS: usize = 16;

/// A line that is given atom by atom, in memory that was taken once. Contracts see what it has still
/// to give.
#[derive(Drop)]
pub(crate) struct Line<'a> {
    atoms: Vec<Atom<'a>>,
}

impl<'a> Model for Line<'a> {
    ghost use Rattle.std.specs.Prelude.{◌≤◌, vec_capacity};
    ghost use Rattle.rst_certificate.specs.Atoms.{LineState, line_state};

    ghost Value = { LineState };

    ghost view = { λ line. line_state line.atoms.items };

    ghost invariant = { λ line. 16 ≤ vec_capacity line.atoms };
}

impl<'a> Line<'a> {
    // The empty line.
    pub(crate) fn new(alloc: Global) -> Result<Line<'a>, NoMemory>
        ensures { IfOk result (λ line. line ≡ line_state []) }
    {
        Ok(Line {
            atoms: Vec::with_capacity(alloc, MOST_ATOMS)?,
        })
    }

    // One more atom at the end, where there are fewer than 16.
    pub(crate) fn put(&mut self, atom: Atom<'a>)
        requires { self.old.count < 16 }
        ensures { Adds self.old self.new (atom_text atom.entry) 1 }
    {
        let _ = self.atoms.push(atom);
    }

    // Moves bytes from the front to the end of the piece, and says whether there was an atom.
    pub(crate) fn move_front(&mut self, piece: &mut Piece) -> bool
        requires { length piece.old + 41 ≤ 65536 }
        ensures moved { piece.new ++ self.new.text ≡ piece.old ++ self.old.text }
        ensures work { OnTrue result (line_work self.new < line_work self.old) }
        ensures none { OnFalse result ((self.old ≡ line_state []) × (self.new ≡ self.old) × (piece.new ≡ piece.old)) }
    {
        if self.atoms.is_empty() {
            return false;
        }
        match move_atom(self.atoms[0], piece) {
            Some(rest) => self.atoms[0] = rest,
            None => {
                self.atoms.remove(0);
            }
        }
        true
    }
}
