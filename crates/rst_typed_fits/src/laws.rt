//! Sets and statements that are typed without a fault fit together.

ghost use Rattle.std.specs.Prelude.{◌≡◌, ℕ, ◌≤◌, Bool, true, not, List, None};
ghost use Rattle.std.specs.List.{AllByRecursion};
ghost use Rattle.rst_tree.specs.Trees.{Tree};
ghost use Rattle.rst_tree.specs.Targets.{Place};
ghost use Rattle.rst_tree.specs.Statements as tree;
ghost use Rattle.rst_width.specs.Scopes.{Names, AreMeanings};
ghost use Rattle.rst_width.specs.Reads.{HaveWidths};
ghost use Rattle.rst_net.specs.declared.signal.Slice.{Slice};
ghost use Rattle.rst_net.specs.Statements.{Statement};
ghost use Rattle.rst_names.specs.Faults.{first};
ghost use Rattle.rst_typing.specs.Typing.{answer_faults, slices_of, is_settable, typed_at, typed_set, typed_stmt, set_faults, stmt_faults};
ghost use Rattle.rst_width.specs.Answers.{typed_answer, own_shape, widened_shape};
ghost use Rattle.rst_width.specs.Typed.{shape_of};
ghost use Rattle.rst_cycle.specs.Effects.{target_width};
ghost use Rattle.rst_blocks.specs.Sets.{first_set};
ghost use Rattle.rst_statement_values.specs.Fits.{ExpressionFits, SliceInside, SetFits, StatementFits};
ghost use Rattle.rst_settled.specs.Designs.{IsSound};
ghost use Rattle.rst_typed_fits.specs.Kinds.{HaveKind, HaveTargets, AreSettable};

/// An expression that is typed without a fault fits, and so do the slices of one that has the form of a target.
pub fn typed_expressions_fit()
    ensures fits { (room : ℕ → ℕ) (names : Names) (e : Tree) (width : ℕ) → AreMeanings names → HaveWidths room names → first (answer_faults (typed_answer names e width)) ≡ None → ExpressionFits room (typed_at names e width) }
    ensures shape { (names : Names) (e : Tree) (width : ℕ) → AreMeanings names → first (answer_faults (typed_answer names e width)) ≡ None → shape_of (typed_at names e width) ≡ widened_shape (own_shape names e) width }
    ensures slices { (room : ℕ → ℕ) (names : Names) (e : Tree) (width : ℕ) → AreMeanings names → HaveWidths room names → first (answer_faults (typed_answer names e width)) ≡ None → AllByRecursion (SliceInside room) (slices_of (typed_at names e width)) }
    ensures narrow { (names : Names) (e : Tree) (width : ℕ) → AreMeanings names → first (answer_faults (typed_answer names e width)) ≡ None → target_width (slices_of (typed_at names e width)) ≤ (shape_of (typed_at names e width)).width }
    // One that can be set has all its bits in its slices.
    ensures whole { (names : Names) (e : Tree) (width : ℕ) → AreMeanings names → first (answer_faults (typed_answer names e width)) ≡ None → is_settable (typed_at names e width) ≡ true → target_width (slices_of (typed_at names e width)) ≡ (shape_of (typed_at names e width)).width }
{}

/// A set that is typed without a fault fits.
pub fn typed_sets_fit()
    ensures sets { (room : ℕ → ℕ) (names : Names) (target : Place) (e : Tree) (blocking : Bool) → AreMeanings names → HaveWidths room names → first (set_faults names target e) ≡ None → SetFits room blocking (typed_set names target e blocking) }
    // One of any slices that lie inside their signals, the value of which works at their width at least.
    ensures parts { (room : ℕ → ℕ) (names : Names) (target : List Slice) (e : Tree) (width : ℕ) (blocking : Bool) → AreMeanings names → HaveWidths room names → AllByRecursion (SliceInside room) target → target_width target ≤ width → first (answer_faults (typed_answer names e width)) ≡ None → SetFits room blocking (record { target = target; value = typed_at names e width; blocking = blocking }) }
{}

/// A statement that is typed without a fault fits where its sets are of one kind, and its targets and full cases are sound anyway.
pub fn typed_statements_fit()
    ensures fits { (room : ℕ → ℕ) (names : Names) (blocking : Bool) (s : tree.Statement) → AreMeanings names → HaveWidths room names → first (stmt_faults names s) ≡ None → HaveKind blocking (typed_stmt names s) → StatementFits room blocking (typed_stmt names s) }
    ensures sound { (room : ℕ → ℕ) (names : Names) (s : tree.Statement) → AreMeanings names → HaveWidths room names → first (stmt_faults names s) ≡ None → IsSound room (typed_stmt names s) }
    ensures targets { (names : Names) (s : tree.Statement) → AreMeanings names → first (stmt_faults names s) ≡ None → AreSettable names s → HaveTargets (typed_stmt names s) }
{}

/// A statement each set of which has a target has no set of the other kind where there is no first one.
pub fn kinds_by_first_set()
    ensures { (blocking : Bool) (s : Statement) → HaveTargets s → first_set (not blocking) s ≡ None → HaveKind blocking s }
{}
