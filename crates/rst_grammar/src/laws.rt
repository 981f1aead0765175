//! Laws of the grammar.

ghost use Rattle.std.specs.Prelude.{◌≡◌, ◌≤◌, List, length};
ghost use Rattle.rst_tree.specs.Trees.{Tree};
ghost use Rattle.rst_tree.specs.Targets.{Place};
ghost use Rattle.rst_tree.specs.Statements.{Statement};
ghost use Rattle.rst_tree.specs.Modules.{PlainModule};
ghost use Rattle.rst_tree.specs.WellFormed.{FormedModule, parts_of};
ghost use Rattle.rst_grammar.specs.Expressions.{Spells};
ghost use Rattle.rst_grammar.specs.Targets.{SpellsTarget};
ghost use Rattle.rst_grammar.specs.Statements.{SpellsStmt};
ghost use Rattle.rst_grammar.specs.Modules.{SpellsModule};
ghost use Rattle.rst_grammar.specs.declared.symbol.Symbol.{Symbol};

/// A list of symbols has at most one expression.
pub fn one_tree()
    ensures { (e f : Tree) (ts : List Symbol) → Spells e ts → Spells f ts → e ≡ f }
{}

/// A list of symbols has at most one target.
pub fn one_target()
    ensures { (s t : Place) (ts : List Symbol) → SpellsTarget s ts → SpellsTarget t ts → s ≡ t }
{}

/// A list of symbols has at most one statement.
pub fn one_statement()
    ensures { (s t : Statement) (ts : List Symbol) → SpellsStmt s ts → SpellsStmt t ts → s ≡ t }
{}

/// A list of symbols has at most one module.
pub fn one_module()
    ensures { (m n : PlainModule) (ts : List Symbol) → SpellsModule m ts → SpellsModule n ts → m ≡ n }
{}

/// A module that symbols spell is well formed, and it has at most as many parts as there are symbols.
pub fn well_formed()
    ensures formed { (m : PlainModule) (ts : List Symbol) → SpellsModule m ts → FormedModule m }
    ensures few { (m : PlainModule) (ts : List Symbol) → SpellsModule m ts → parts_of m ≤ length ts }
{}
