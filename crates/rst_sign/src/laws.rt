//! What verdicts say of the design that texts spell.
ghost use Rattle.std.specs.Prelude.{◌≡◌, ℕ, List, Bool, Ok, Some, IsSome};
ghost use Rattle.rst_tree.specs.Trees.{Text};
ghost use Rattle.rst_verdict.specs.declared.verdict.Verdict.{Verdict};
ghost use Rattle.rst_verdict.specs.declared.verdict.Verdict.TheVariants.{Refuted};
ghost use Rattle.rst_question.specs.declared.question.Places.{Places as Places_};
ghost use Rattle.rst_question.specs.Questions.{Question, QuestionGives, netlist};
ghost use Rattle.rst_replies.specs.Replies.{Knows, IsVerdictOf, HasOrderedGates};
ghost use Rattle.rst_sign.specs.Promises.{Resets, Refutes, signed_pattern};

use rst_source_machine::laws::{
    alike_machines, gates_are_sources, patterns_of_gates, sources_are_machines,
};

/// Of a question that texts ask, whose design has gates that read earlier nodes only: where three-valued simulation of the design knows
/// every register behind the pattern, it is an essential reset sequence of the design, however its free bits are filled (`known`); so it
/// is where a verdict signs it, and the verdict keeps this pattern (`signed`). Where a verdict refutes it, the verdict's word tells its two
/// power-up states apart behind its filling of the pattern (`refuted`).
pub fn verdicts_hold()
    ensures known { (places : Places_) (top script : Text) (sources : List Text) (q : Question) → QuestionGives places top script sources (Ok q)
        → HasOrderedGates (netlist q) → Knows q → Resets q.flat q.pattern }
    ensures signed { (places : Places_) (top script : Text) (sources : List Text) (q : Question) (verdict : Verdict) → QuestionGives places top script sources (Ok q)
        → HasOrderedGates (netlist q) → IsVerdictOf q verdict → IsSome (signed_pattern verdict)
        → (signed_pattern verdict ≡ Some q.pattern) × Resets q.flat q.pattern }
    ensures refuted { (places : Places_) (top script : Text) (sources : List Text) (q : Question) (seq word : List (List Bool)) (a b : List Bool)
        → QuestionGives places top script sources (Ok q) → HasOrderedGates (netlist q) → IsVerdictOf q (Refuted seq a b word)
        → Refutes q.flat q.pattern seq a b word }
{
    sources_are_machines();
    gates_are_sources();
    patterns_of_gates();
    alike_machines();
}
