// What is still to be given of a text.
ghost use Rattle.std.specs.Prelude.{◌≡◌, ◌+◌, ◌≤◌, ◌<◌, [], ◌++◌, length, IfOk};
ghost use Rattle.std.specs.Bool.{OnTrue, OnFalse};
ghost use Rattle.std.specs.List.{flat_map};
ghost use Rattle.rst_certificate.specs.Words as words;
ghost use Rattle.rst_certificate.specs.Sections.{lines_of};

use crate::line::Line;
use crate::piece::Piece;
use crate::section::{Section, first_line};
use rst_outside::NoMemory;
use std::alloc::Global;
use std::marker::Model;

/// The line under way, and the sections behind it. Contracts see the bytes that they stand for.
#[derive(Drop)]
pub(crate) struct Unwritten<'a> {
    line: Line<'a>,
    sections: Vec<Section<'a>>,
}

impl<'a> Model for Unwritten<'a> {
    ghost use Rattle.rst_certificate.specs.Sections.{UnwrittenState, unwritten_state};

    ghost Value = { UnwrittenState };

    ghost view = { λ unwritten. unwritten_state unwritten.line unwritten.sections.items };
}

impl<'a> Unwritten<'a> {
    #[tactic(auto, using(crate::proofs::Texts::text_of_lines))]
    pub(crate) fn new(alloc: Global, sections: Vec<Section<'a>>) -> Result<Unwritten<'a>, NoMemory>
        ensures { IfOk result (λ unwritten. unwritten.text ≡ flat_map words.line (lines_of sections.entry.items)) }
    {
        let line = Line::new(alloc)?;
        Ok(Unwritten { line, sections })
    }

    // Moves bytes from the front to the end of the piece, and says whether anything was left.
    fn step(&mut self, piece: &mut Piece) -> bool
        requires { length piece.old + 41 ≤ 65536 }
        ensures moved { piece.new ++ self.new.text ≡ piece.old ++ self.old.text }
        ensures work { OnTrue result (self.new.work < self.old.work) }
        ensures none { OnFalse result ((self.new.text ≡ []) × (self.new.work ≡ self.old.work)) }
    {
        if self.line.move_front(piece) {
            return true;
        }
        if self.sections.is_empty() {
            return false;
        }
        match first_line(self.sections[0], &mut self.line) {
            Some(rest) => self.sections[0] = rest,
            None => {
                self.sections.remove(0);
            }
        }
        true
    }

    // Makes the piece the next bytes. It has none exactly where none were left.
    pub(crate) fn fill(&mut self, piece: &mut Piece)
        ensures moved { piece.new ++ self.new.text ≡ self.old.text }
        ensures none { piece.new ≡ [] → self.new.text ≡ [] }
        ensures short { length piece.new ≤ 65536 }
    {
        piece.clear();
        let mut more = true;
        let mut room = piece.room();
        while more && room >= 41 {
            more = self.step(piece);
            room = piece.room();
        }
    }
}
