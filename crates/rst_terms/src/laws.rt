//! What the operators of words give by their bits, in two values.

ghost use Rattle.std.specs.Prelude.{◌≡◌, ℕ, ◌<◌, ◌≤◌, ◌^◌, Bool, List, false, length, cond, slice_index_or};
ghost use Rattle.rst_word.specs.declared.ops.UnaryOp.{UnaryOp};
ghost use Rattle.rst_word.specs.declared.ops.BinaryOp.{BinaryOp};
ghost use Rattle.rst_word.specs.Words.{PlainWord};
ghost use Rattle.rst_word.specs.Words as word;
ghost use Rattle.rst_word.specs.Unary.{unary_word};
ghost use Rattle.rst_word.specs.Binary.{binary_word, HasWidths};
ghost use Rattle.rst_terms.specs.Algebras.{bits};
ghost use Rattle.rst_terms.specs.Numbers.{number, bits_of};
ghost use Rattle.rst_terms.specs.Recurrences.{chosen, selected};
ghost use Rattle.rst_terms.specs.Operators.{unary_bits, binary_bits, extended, is_division};
ghost use Rattle.rst_terms.specs.Spelling.{Spells, HasSign};

/// The bits of an operator's recurrence spell the word that the operator gives (IEEE 1364-2001, clause 4.1).
pub fn operators()
    ensures unary { (op : UnaryOp) (xs : List Bool) (a : PlainWord) → Spells xs a → Spells (unary_bits bits op tt xs).1 (unary_word op a) }
    ensures binary { (op : BinaryOp) (signed : Bool) (xs ys : List Bool) (a b : PlainWord) → is_division op ≡ false → 0 < a.width → HasWidths op a b → HasSign op signed a b → Spells xs a → Spells ys b → Spells (binary_bits bits op signed tt xs ys).1 (binary_word op a b) }
    ensures extension { (signed : Bool) (width : ℕ) (xs : List Bool) (a : PlainWord) → Spells xs a → 0 < a.width → a.width ≤ width → Spells (extended bits signed width xs) (word.extended width signed a) }
{}

/// A choice is one of its words, and a select the bit at the index.
pub fn choices()
    ensures choice { (c : Bool) (xs ys : List Bool) → length xs ≡ length ys → (chosen bits tt c xs ys).1 ≡ cond c xs ys }
    ensures select { (ns xs : List Bool) → length xs ≡ 2 ^ length ns → slice_index_or (selected bits tt ns xs).1 0 false ≡ slice_index_or xs (number ns) false }
{}

/// The bits of a number spell it.
pub fn spellings()
    ensures width { (w n : ℕ) → length (bits_of w n) ≡ w }
    ensures number { (w n : ℕ) → n < 2 ^ w → number (bits_of w n) ≡ n }
{}
