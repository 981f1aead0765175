ghost use Rattle.std.specs.Prelude.{◌≡◌, ◌↔◌, ℕ, Bool, List, ◌++◌, length};
ghost use Rattle.rst_clause.specs.Literals.{AreClauses, Solves};
ghost use Rattle.rst_clause.specs.Operations.{IsDefined};
ghost use Rattle.rst_clause.specs.Solutions.{IsSolution};
ghost use Rattle.rst_clause.specs.Standing.{BeginsWith};
ghost use Rattle.rst_pair.specs.declared.query.Query.{Query};
ghost use Rattle.rst_pair.specs.Sides.{Sides};
ghost use Rattle.rst_pair.specs.Fronts.{Front'};
ghost use Rattle.rst_pair.specs.Queries.{IsQueryCase};
ghost use Rattle.rst_pose.specs.Posed.{posed};
ghost use Rattle.rst_query_laws.specs.Conditions.{IsAbout};

/// A posed query is exact: its solutions, read on the free bits, are exactly the cases of the query.
///
/// The fixed clauses are those of gates over the free bits, and the required ones speak of their
/// variables (`formed`), so each choice of the free bits extends in exactly one way. This extension
/// solves the required clauses exactly where the free bits are a case of the query (`each`). So a
/// list of bits is a solution exactly where it is a case (`solutions`).
///
/// Both sides have the same ports; the front's cubes have a place for each register of both sides,
/// and its marked registers are registers of both; a word or a pattern is one of the pair's inputs.
pub fn posed_queries()
    ensures formed { (p : Sides) (f : Front') (query : Query) → IsAbout p f query → (vars : ℕ) × IsDefined (posed p f query).free vars (posed p f query).fixed × AreClauses vars (posed p f query).required }
    ensures each { (p : Sides) (f : Front') (query : Query) (bits : List Bool) (v : ℕ → Bool) → IsAbout p f query → length bits ≡ (posed p f query).free → BeginsWith (posed p f query).free bits v → Solves v (posed p f query).fixed → Solves v (posed p f query).required ↔ IsQueryCase p f query bits }
    ensures solutions { (p : Sides) (f : Front') (query : Query) (bits : List Bool) → IsAbout p f query → IsSolution (posed p f query).free ((posed p f query).fixed ++ (posed p f query).required) bits ↔ IsQueryCase p f query bits }
{}
