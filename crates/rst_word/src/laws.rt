//! Laws of words.

ghost use Rattle.std.specs.Prelude.{◌+◌, ◌≤◌, Bool, ℕ};
ghost use Rattle.rst_word.specs.declared.ops.UnaryOp.{UnaryOp};
ghost use Rattle.rst_word.specs.declared.ops.BinaryOp.{BinaryOp};
ghost use Rattle.rst_word.specs.Words.{PlainWord, IsWord, extended, joined};
ghost use Rattle.rst_word.specs.Unary.{unary_word};
ghost use Rattle.rst_word.specs.Binary.{binary_word, HasWidths};

/// What operators, joins and extensions give of words is a word: 1 to 64 bits, and a number below 2 to the power of the width.
pub fn results_are_words()
    ensures unary { (op : UnaryOp) (a : PlainWord) → IsWord a → IsWord (unary_word op a) }
    ensures binary { (op : BinaryOp) (a b : PlainWord) → IsWord a → IsWord b → HasWidths op a b → IsWord (binary_word op a b) }
    ensures join { (a b : PlainWord) → IsWord a → IsWord b → a.width + b.width ≤ 64 → IsWord (joined a b) }
    ensures extension { (width : ℕ) (signed : Bool) (a : PlainWord) → IsWord a → a.width ≤ width → width ≤ 64 → IsWord (extended width signed a) }
{}
