//! What is read of a line, and what is written on it.
ghost use Rattle.std.specs.Prelude.{◌≡◌, ◌≤◌, ◌^◌, ◌++◌, ℕ, ℤ, Bool, Some, List, [], length, codes};
ghost use Rattle.std.specs.List.{AllByRecursion};
ghost use Rattle.rst_value.specs.declared.tern.Tern.{Tern};
ghost use Rattle.rst_pair.specs.declared.hop.Hop.{Hop};
ghost use Rattle.rst_pair.specs.declared.journal.Entry.{Entry};
ghost use Rattle.rst_certificate.specs.CertText.{step_line, free_step_line, clause_line, hop_text, entry_line};
ghost use Rattle.rst_cert_lines.specs.declared.lines.Shape.{Shape};
ghost use Rattle.rst_cert_lines.specs.declared.lines.Place.{Place};
ghost use Rattle.rst_cert_lines.specs.Readers.{step_at, free_step_at, clause_at, hop_line_at, entry_at};
ghost use Rattle.rst_cert_lines.specs.Fits.{IsLiteral, HopFits, EntryFits};

/// What is read off a line is written there, and fits.
pub fn what_is_read_is_written()
    ensures step { (inputs : ℕ) (text : List ℕ) (it : List Bool × List ℕ) → step_at inputs text ≡ Some it → (text ≡ step_line it.0 ++ it.1) × (length it.0 ≡ inputs) }
    ensures free_step { (inputs : ℕ) (text : List ℕ) (it : List Tern × List ℕ) → free_step_at inputs text ≡ Some it → (text ≡ free_step_line it.0 ++ it.1) × (length it.0 ≡ inputs) }
    ensures clause { (text : List ℕ) (it : List ℤ × List ℕ) → clause_at text ≡ Some it → (text ≡ clause_line it.0 ++ it.1) × AllByRecursion IsLiteral it.0 }
    ensures hop { (shape : Shape) (word : List ℕ) (before : ℕ) (text : List ℕ) (it : Hop × List ℕ) → hop_line_at shape word before text ≡ Some it
        → (text ≡ (codes "cube " ++ hop_text word it.0) ++ it.1) × HopFits shape before it.0 }
    ensures entry { (place : Place) (text : List ℕ) (it : Entry × List ℕ) → entry_at place text ≡ Some it → (text ≡ entry_line it.0 ++ it.1) × EntryFits place it.0 }
{}

/// A line that is written is read where what it says fits.
#[tactic(auto, using(crate::proofs::LineLaws::step_again, crate::proofs::LineLaws::free_step_again, crate::proofs::ClauseLaws::clause_again, crate::proofs::EntryLaws::entry_again))]
pub fn what_is_written_is_read()
    ensures step { (input : List Bool) (rest : List ℕ) → step_at (length input) (step_line input ++ rest) ≡ Some (input, rest) }
    ensures free_step { (places : List Tern) (rest : List ℕ) → free_step_at (length places) (free_step_line places ++ rest) ≡ Some (places, rest) }
    ensures clause { (clause : List ℤ) → AllByRecursion IsLiteral clause → clause_at (clause_line clause) ≡ Some (clause, []) }
    ensures entry { (place : Place) (entry : Entry) → place.blocked ≤ 2 ^ 32 → place.freed ≤ 2 ^ 32 → EntryFits place entry → entry_at place (entry_line entry) ≡ Some (entry, []) }
{}
