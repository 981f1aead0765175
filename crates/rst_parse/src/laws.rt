//! Laws of parsing.

ghost use Rattle.std.specs.Prelude.{◌≡◌, ◌≤◌, ℕ, List, length, Ok, Err};
ghost use Rattle.std.specs.List.{All};
ghost use Rattle.rst_lex.specs.declared.token.Token.{Token};
ghost use Rattle.rst_lex.specs.Lexing.{Reads};
ghost use Rattle.rst_tree.specs.Modules.{PlainModule};
ghost use Rattle.rst_tree.specs.WellFormed.{WellFormed};
ghost use Rattle.rst_parse.specs.declared.parser.ParseFault.{ParseFault};
ghost use Rattle.rst_parse.specs.Parsing.{Answer, Parses, NamesToken};

/// The tokens of a text are parsed in one way: they have one list of modules, or one fault.
pub fn one_answer()
    ensures { (text : List ℕ) (tokens : List Token) (p q : Answer) → Parses text tokens p → Parses text tokens q → p ≡ q }
{}

/// The tokens that a text is read as have an answer.
pub fn some_answer()
    ensures { (text : List ℕ) (tokens : List Token) → Reads text (Ok tokens) → (answer : Answer) × Parses text tokens answer }
{}

/// The place of a fault lies among the tokens.
pub fn fault_place()
    ensures { (text : List ℕ) (tokens : List Token) (fault : ParseFault) → Parses text tokens (Err fault) → NamesToken (length tokens) fault }
{}

/// Each module that is parsed from at most 1,048,576 tokens is well formed.
pub fn well_formed()
    ensures { (text : List ℕ) (tokens : List Token) (modules : List PlainModule) → length tokens ≤ 1048576 → Parses text tokens (Ok modules) → All WellFormed modules }
{}
