ghost use Rattle.std.specs.Prelude.{ℕ, ◌≤◌, ◌^◌, Bool, ℤ, List, length};
ghost use Rattle.rst_value.specs.declared.tern.Tern.{Tern};
ghost use Rattle.rst_clause.specs.Literals.{Solves};
ghost use Rattle.rst_clause.specs.Propagation.{IsRefutation};
ghost use Rattle.rst_clause.specs.Operations.{IsDefined};
ghost use Rattle.rst_clause.specs.Extension.{HasOneExtension};
ghost use Rattle.rst_clause.specs.Paths.{AreApart, AreWide};

/// The law that a log which refutes clauses tells the truth: they have no solution.
pub fn refutations_refute()
    ensures { (vars : ℕ) (clauses log : List (List ℤ)) → IsRefutation vars clauses log
        → (v : ℕ → Bool) → Solves v clauses → ⊥ }
{}

/// The law that each choice of the free bits extends in exactly one way to the variables that
/// gates define, and that unit propagation finds this extension.
pub fn one_extension()
    ensures { (free vars : ℕ) (fixed : List (List ℤ)) → IsDefined free vars fixed → HasOneExtension free vars fixed }
{}

/// The law that paths over `free` bits, no two of which meet, are at most as many as the choices of
/// these bits.
pub fn disjoint_paths_are_few()
    ensures { (free : ℕ) (paths : List (List Tern)) → AreWide free paths → AreApart paths → length paths ≤ 2 ^ free }
{}
