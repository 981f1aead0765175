ghost use Rattle.std.specs.Prelude.{◌≡◌, ℕ, ◌<◌, Bool, List, length};
ghost use Rattle.rst_value.specs.declared.tern.Tern.{Tern};
ghost use Rattle.rst_gate.specs.Machine.{IsWord, SameAcross, outs};
ghost use Rattle.rst_pair.specs.declared.hop.Hop.{Hop};
ghost use Rattle.rst_pair.specs.Sides.{Sides, AreSides, IsPair, Holds, left_machine, right_machine};
ghost use Rattle.rst_pair.specs.Fronts.{Front', IsRelated};
ghost use Rattle.rst_pair.specs.Hops.{AreHops, cube_at, word_of};
ghost use Rattle.rst_landing.specs.Landings.{IsLanding, EndsInside};
ghost use Rattle.rst_replay.specs.Words.{AreRight};
ghost use Rattle.rst_replay.specs.Refutations.{AreSigned, IsRefutedBy};

/// The word of a blocked hop is a word of the inputs (`word`), and tells the pairs of the hop's cube
/// apart by their outputs (`apart`), where each hop is right.
pub fn words_tell_apart()
    ensures word { (p : Sides) (hops : List Hop) (k : ℕ) → AreHops p hops → k < length hops → IsWord (left_machine p) (word_of hops k) }
    ensures apart { (p : Sides) (hops : List Hop) (k : ℕ) (s t : List Bool) → AreSides p → AreHops p hops → AreRight p hops → k < length hops → IsPair p s t → Holds (cube_at hops k) s t → outs (left_machine p) s (word_of hops k) ≡ outs (right_machine p) t (word_of hops k) → ⊥ }
{}

/// Two power-up states that land in a blocked cube behind a filling refute the pattern: behind this
/// filling the word of the cube's hop tells them apart (`refuted`), so the pattern doesn't sign
/// (`unsigned`).
pub fn landed_pairs_are_told_apart()
    ensures refuted { (p : Sides) (f : Front') (pattern : List (List Tern)) (a b : List Bool) (fill : List (List Bool)) (cube : ℕ) → AreSides p → AreHops p f.blocked → AreRight p f.blocked → IsLanding p f pattern a b fill cube → IsRefutedBy p pattern fill a b (word_of f.blocked cube) }
    ensures unsigned { (p : Sides) (pattern : List (List Tern)) (a b : List Bool) (fill word : List (List Bool)) → IsRefutedBy p pattern fill a b word → AreSigned p pattern → ⊥ }
{}

/// Where every pair is related behind every filling of a pattern, and related pairs behave the same,
/// every filling aligns every two power-up states: the pattern signs.
pub fn inside_signs()
    ensures { (p : Sides) (f : Front') (pattern : List (List Tern)) → AreSides p → ((s t : List Bool) → IsPair p s t → IsRelated f s t → SameAcross (left_machine p) (right_machine p) s t) → EndsInside p f pattern → AreSigned p pattern }
{}
