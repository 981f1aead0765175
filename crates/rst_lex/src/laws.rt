//! Laws of tokens, over the definitions alone.
ghost use Rattle.std.specs.Prelude.{◌≡◌, ℕ, List, map};
ghost use Rattle.rst_lex.specs.Lexing.{Answer, Reads};
ghost use Rattle.rst_lex.specs.Words.{keywords, refused_keywords};
ghost use Rattle.rst_lex.specs.declared.words.TheConstants.{KEYWORDS, REFUSED_KEYWORDS};

/// The lists of words that this crate gives out are those of the definitions.
pub fn word_lists()
    ensures keywords { map (λ word. word.now) KEYWORDS ≡ keywords }
    ensures refused_keywords { map (λ word. word.now) REFUSED_KEYWORDS ≡ refused_keywords }
{}

/// Every text is read in some way: it has a list of tokens, or a first fault.
pub fn some_reading()
    ensures { (text : List ℕ) → (answer : Answer) × Reads text answer }
{}

/// A text is read in one way: it has one list of tokens, or one first fault. So `lex` answers that
/// one unless memory runs out.
pub fn one_reading()
    ensures { (text : List ℕ) (p : Answer) (q : Answer) → Reads text p → Reads text q → p ≡ q }
{}
