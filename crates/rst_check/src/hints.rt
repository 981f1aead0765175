// Hints for the replay of a log.
ghost use Rattle.std.specs.Prelude.{◌≡◌, ◌≤◌, [], ◌∷◌, ◌++◌, length, OnOk, OnErr};
ghost use Rattle.rst_clause.specs.Parts.{begin_of};
ghost use Rattle.rst_check.specs.Hints.{AreRising, numbers_at};

use rst_outside::NoMemory;
use std::alloc::Global;
use std::marker::Model;

/// For each line of a log the clauses to look at first, by number: those of the query from 0, the
/// fixed ones before the required ones, and then the lines. They promise nothing: a wrong hint
/// costs time alone.
///
/// The numbers lie one after another; contracts see them with the places where those of each line
/// end.
#[derive(Drop)]
pub struct Hints {
    numbers: Vec<u32>,
    ends: Vec<usize>,
}

impl Model for Hints {
    ghost use Rattle.rst_check.specs.Hints.{Hints', AreRising};

    ghost Value = { Hints' };

    ghost view = { λ h. record { numbers = h.numbers.items; ends = h.ends.items } };

    ghost invariant = { λ h. AreRising h.numbers.items h.ends.items };
}

// Where the numbers of the line begin.
fn start_of(ends: &[usize], line: usize) -> usize
    requires { line ≤ length ends.now }
    ensures { result ≡ begin_of 0 ends.now line }
{
    if line == 0 { 0 } else { ends[line - 1] }
}

// The numbers of the line.
fn numbers_at<'a>(numbers: &'a [u32], ends: &[usize], line: usize) -> &'a [u32]
    requires { AreRising numbers.now ends.now }
    ensures { result.now ≡ numbers_at numbers.now ends.now line }
{
    if line >= ends.len() {
        let (none, _) = numbers.split_at(0);
        return none;
    }
    let from = start_of(ends, line);
    let (front, _) = numbers.split_at(ends[line]);
    let (_, part) = front.split_at(from);
    part
}

impl Hints {
    /// No hint.
    pub fn new(alloc: Global) -> Hints
        ensures { result ≡ record { numbers = []; ends = [] } }
    {
        Hints {
            numbers: Vec::new(alloc),
            ends: Vec::new(alloc),
        }
    }

    /// One more hint of the line that comes next.
    pub fn push(&mut self, number: u32) -> Result<(), NoMemory>
        ensures ok { OnOk result (self.new ≡ record { numbers = self.old.numbers ++ number ∷ []; ends = self.old.ends }) }
        ensures err { OnErr result (self.new ≡ self.old) }
    {
        self.numbers.push(number)?;
        Ok(())
    }

    /// The hints of that line end.
    pub fn end(&mut self) -> Result<(), NoMemory>
        ensures ok { OnOk result (self.new ≡ record { numbers = self.old.numbers; ends = self.old.ends ++ length self.old.numbers ∷ [] }) }
        ensures err { OnErr result (self.new ≡ self.old) }
    {
        let end = self.numbers.len();
        self.ends.push(end)?;
        Ok(())
    }

    /// The hints of the line, from 0; none where there are none.
    pub fn get(&self, line: usize) -> &[u32]
        ensures { result.now ≡ numbers_at self.now.numbers self.now.ends line }
    {
        numbers_at(&self.numbers, &self.ends, line)
    }
}
