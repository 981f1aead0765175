//! Laws of sizing, of typed expressions, and of constant ones.

ghost use Rattle.std.specs.Prelude.{◌≡◌, ℕ, ◌^◌, ◌<◌, false, true, Some, None, Ok, Err};
ghost use Rattle.rst_lex.specs.declared.token.Literal.{Literal};
ghost use Rattle.rst_tree.specs.Trees as tree;
ghost use Rattle.rst_tree.specs.Trees.{Text, Tree, Trees};
ghost use Rattle.rst_word.specs.Words.{PlainWord, IsWord};
ghost use Rattle.rst_word.specs.declared.ops.UnaryOp.{UnaryOp};
ghost use Rattle.rst_word.specs.declared.ops.BinaryOp.{BinaryOp};
ghost use Rattle.rst_width.specs.declared.scope.Scope.{Scope};
ghost use Rattle.rst_width.specs.declared.typed_expr.Shape.{Shape};
ghost use Rattle.rst_width.specs.declared.typed_expr.WidthFault.TheVariants.{NoName};
ghost use Rattle.rst_width.specs.declared.names.UnshapedNames.{UnshapedNames};
ghost use Rattle.rst_width.specs.Scopes as scope;
ghost use Rattle.rst_width.specs.Scopes.{Names, Extent, AreMeanings, names_of, names_with};
ghost use Rattle.rst_width.specs.Typed as node;
ghost use Rattle.rst_width.specs.Typed.{Typed, names_signal, sized_as};
ghost use Rattle.rst_width.specs.Values.{Valuation, value, constant_word};
ghost use Rattle.rst_width.specs.Fit.{IsFit, IsFitAt};
ghost use Rattle.rst_width.specs.Reads.{HaveWidths, ReadsInside};
ghost use Rattle.rst_width.specs.Cut.{cut_shape};
ghost use Rattle.rst_width.specs.Sized.{Good, larger, is_division};
ghost use Rattle.rst_width.specs.Steps.{unary_step, sum_step, division_step, shift_step, choose_step};
ghost use Rattle.rst_width.specs.Selects.{part_shape, bit_found, part_found};
ghost use Rattle.rst_width.specs.Sizing.{WorksInContext, Arithmetic, Moving, Comparing, Deciding, kind_of, one_bit, word_of, above, above_both, repeat_shape, join_found, counted_found};
ghost use Rattle.rst_tree.specs.Targets.{Place};
ghost use Rattle.rst_width.specs.Targets.{target_expr, IsPlace};
ghost use Rattle.rst_width.specs.Table.{itself, each_itself, becomes, stands, number, table_shape, table_sum};
ghost use Rattle.rst_width.specs.Answers.{own_shape, widened_shape, placed_shape, typed_answer, placed_answer, constant_answer};

/// The width and sign of an expression by itself are those of the table of expression sizing.
pub fn own_shapes_by_the_table()
    ensures { (names : Names) (e : Tree) → own_shape names e ≡ table_shape names e }
{}

/// What an expression becomes in a context of some width and sign, row by row of the table.
pub fn rows_in_context()
    ensures literal { (names : Names) (n : Literal) (c : Shape) → becomes names (tree.Number n) c ≡ stands (sized_as n.width n.signed) (Good (node.Word (word_of n))) c }
    ensures undeclared { (names : Names) (n : Text) (c : Shape) → names n ≡ None → becomes names (tree.Name n) c ≡ Err (NoName n) }
    ensures signal { (names : Names) (n : Text) (i : ℕ) (x : Extent) (c : Shape) → names n ≡ Some (scope.Signal i x) → becomes names (tree.Name n) c ≡ stands (sized_as x.width x.signed) (Good (node.Signal i)) c }
    ensures parameter { (names : Names) (n : Text) (w : PlainWord) (c : Shape) → names n ≡ Some (scope.Param w) → becomes names (tree.Name n) c ≡ stands (sized_as w.width w.signed) (Good (node.Word w)) c }
    ensures bit { (names : Names) (n : Text) (i : Tree) (c : Shape) → becomes names (tree.Bit n i) c ≡ stands one_bit (bit_found false n (names n) (itself names i)) c }
    ensures part { (names : Names) (n : Text) (h l : Tree) (c : Shape) → becomes names (tree.Part n h l) c ≡ stands (part_shape (number names h) (number names l)) (part_found false n (names n) (itself names h) (itself names l)) c }
    ensures parentheses { (names : Names) (e : Tree) (c : Shape) → becomes names (tree.Paren e) c ≡ becomes names e c }
    // `+ - ~`
    ensures signs { (names : Names) (op : UnaryOp) (e : Tree) (c : Shape) → WorksInContext op → becomes names (tree.Unary op e) c ≡ unary_step op (becomes names e c) c }
    // `!` and the reductions
    ensures reductions { (names : Names) (op : UnaryOp) (e : Tree) (c : Shape) → (WorksInContext op → ⊥) → becomes names (tree.Unary op e) c ≡ stands one_bit (above (itself names e) (λ x. node.Unary op x)) c }
    // `+ - * & | ^ ~^`
    ensures sums { (names : Names) (op : BinaryOp) (a b : Tree) (c : Shape) → kind_of op ≡ Arithmetic → is_division op ≡ false → becomes names (tree.Binary op a b) c ≡ sum_step op (becomes names a c) (becomes names b c) c }
    // `/ %`
    ensures divisions { (names : Names) (op : BinaryOp) (a b : Tree) (c : Shape) → is_division op ≡ true → becomes names (tree.Binary op a b) c ≡ division_step true op (becomes names a c) (becomes names b c) c }
    // `<< >> <<< >>>`
    ensures shifts { (names : Names) (op : BinaryOp) (a b : Tree) (c : Shape) → kind_of op ≡ Moving → becomes names (tree.Binary op a b) c ≡ shift_step op (becomes names a c) (itself names b) c }
    // `< <= > >= == !=`
    ensures comparisons { (names : Names) (op : BinaryOp) (a b : Tree) (c : Shape) → kind_of op ≡ Comparing → let both = larger (own_shape names a) (own_shape names b) in becomes names (tree.Binary op a b) c ≡ stands one_bit (above_both (becomes names a both) (becomes names b both) (λ x y. node.Binary op x y)) c }
    // `&& ||`
    ensures decisions { (names : Names) (op : BinaryOp) (a b : Tree) (c : Shape) → kind_of op ≡ Deciding → becomes names (tree.Binary op a b) c ≡ stands one_bit (above_both (itself names a) (itself names b) (λ x y. node.Binary op x y)) c }
    ensures choices { (names : Names) (t a b : Tree) (c : Shape) → becomes names (tree.Choose t a b) c ≡ choose_step (itself names t) (becomes names a c) (becomes names b c) c }
    ensures joins { (names : Names) (es : Trees) (c : Shape) → becomes names (tree.Join es) c ≡ stands (sized_as (table_sum names es) false) (join_found (each_itself names es)) c }
    ensures repetitions { (names : Names) (n : Tree) (es : Trees) (c : Shape) → becomes names (tree.Repeat n es) c ≡ stands (repeat_shape (number names n) (table_sum names es)) (counted_found (itself names n) (table_sum names es) (each_itself names es)) c }
    ensures signed { (names : Names) (e : Tree) (c : Shape) → becomes names (tree.Signed e) c ≡ stands (sized_as (table_shape names e).width true) (above (itself names e) node.Sign) c }
    ensures unsigned { (names : Names) (e : Tree) (c : Shape) → becomes names (tree.Unsigned e) c ≡ stands (sized_as (table_shape names e).width false) (above (itself names e) node.Sign) c }
    // An expression by itself, and in a context from outside.
    ensures alone { (names : Names) (e : Tree) → itself names e ≡ becomes names e (table_shape names e) }
    ensures widened { (names : Names) (e : Tree) (width : ℕ) → typed_answer names e width ≡ becomes names e (widened_shape (table_shape names e) width) }
    ensures placed { (names : Names) (e : Tree) (c : Shape) → placed_answer names e c ≡ becomes names e (placed_shape (table_shape names e) c) }
{}

/// All widths above 64 are alike in a context, so that the code may write 65 for them.
pub fn wide_contexts()
    ensures placed { (names : Names) (e : Tree) (context : Shape) → placed_answer names e (cut_shape context) ≡ placed_answer names e context }
    ensures larger { (a b : Shape) → larger (cut_shape a) (cut_shape b) ≡ cut_shape (larger a b) }
{}

/// In the tables of names that the calls take, signals have 1 to 64 bits and parameters are words.
pub fn tables_are_right()
    ensures scope { (table : Scope) → AreMeanings (names_of table) }
    ensures unshaped { (table : Scope) (others : UnshapedNames) → AreMeanings (names_with table others) }
{}

/// Among such names every typed expression has the width and sign that it was brought to, fits together, and reads inside its
/// signals.
pub fn answers_fit()
    ensures typed { (names : Names) → AreMeanings names → (e : Tree) (width : ℕ) (t : Typed) → typed_answer names e width ≡ Ok t → IsFitAt (widened_shape (own_shape names e) width) t }
    ensures placed { (names : Names) → AreMeanings names → (e : Tree) (context : Shape) (t : Typed) → placed_answer names e context ≡ Ok t → IsFitAt (placed_shape (own_shape names e) context) t }
    ensures typed_inside { (widths : ℕ → ℕ) (names : Names) → AreMeanings names → HaveWidths widths names → (e : Tree) (width : ℕ) (t : Typed) → typed_answer names e width ≡ Ok t → ReadsInside widths t }
    ensures placed_inside { (widths : ℕ → ℕ) (names : Names) → AreMeanings names → HaveWidths widths names → (e : Tree) (context : Shape) (t : Typed) → placed_answer names e context ≡ Ok t → ReadsInside widths t }
{}

/// The typed form of a target consists of signals, slices of signals, bits with a variable index, parameters, and joins of these.
pub fn targets_are_places()
    ensures { (names : Names) (target : Place) (t : Typed) → typed_answer names (target_expr target) 0 ≡ Ok t → IsPlace t }
{}

/// Where each signal has a number of its width, the value of a typed expression is a word. (Its width and sign are those of the
/// expression's root, as the value's definition says.)
pub fn values_are_words()
    ensures { (widths : ℕ → ℕ) (signals : Valuation) → ((i : ℕ) → signals i < 2 ^ widths i) → (e : Typed) → IsFit e → ReadsInside widths e → IsWord (value signals e) }
{}

/// An expression that names no signal has one value, whatever the signals are.
pub fn one_value()
    ensures { (signals : Valuation) (e : Typed) → names_signal e ≡ false → value signals e ≡ constant_word e }
{}

/// An expression has a constant word exactly where it has a typed form in the same context that names no signal, and the word is
/// the value of that form.
pub fn constants_are_typed()
    ensures only { (names : Names) (e : Tree) (width : ℕ) (w : PlainWord) → constant_answer names e width ≡ Ok w → (t : Typed) × (typed_answer names e width ≡ Ok t) × (names_signal t ≡ false) × (constant_word t ≡ w) }
    ensures all { (names : Names) (e : Tree) (width : ℕ) (t : Typed) → typed_answer names e width ≡ Ok t → names_signal t ≡ false → constant_answer names e width ≡ Ok (constant_word t) }
{}
