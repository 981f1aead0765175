//! Laws of what texts come to, over the definitions alone.

ghost use Rattle.std.specs.Prelude.{◌≡◌, List, Option};
ghost use Rattle.rst_tree.specs.Trees.{Text};
ghost use Rattle.rst_net.specs.Units.{PlainFlat};
ghost use Rattle.rst_flow.specs.declared.net.Net.{Net};
ghost use Rattle.rst_reject.specs.declared.reject.Reject.{Reject};
ghost use Rattle.rst_design.specs.Netlists.{IsDesignOf, IsNetlistOf, plain_net};
ghost use Rattle.rst_reject.specs.Steps.{HasOneAnswer};
ghost use Rattle.rst_design.specs.Answers.{DesignGives, IsRefused};

use rst_lex::one_reading;

/// Texts come to one answer below a top: to one flat design and one netlist, or to one refusal.
pub fn one_answer()
    ensures design { (texts : List Text) (top : Text) (clock : Option Text) (a b : PlainFlat) → IsDesignOf texts top clock a → IsDesignOf texts top clock b → a ≡ b }
    ensures netlist { (texts : List Text) (top : Text) (clock : Option Text) (a b : Net) → IsNetlistOf texts top clock a → IsNetlistOf texts top clock b → plain_net a ≡ plain_net b }
    ensures refusal { (texts : List Text) (top : Text) (clock : Option Text) (r s : Reject) → IsRefused texts top clock r → IsRefused texts top clock s → r ≡ s }
    ensures not_both { (texts : List Text) (top : Text) (clock : Option Text) (net : Net) (r : Reject) → IsNetlistOf texts top clock net → IsRefused texts top clock r → ⊥ }
    ensures answer { (texts : List Text) (top : Text) (clock : Option Text) → HasOneAnswer (DesignGives texts top clock) }
{
    one_reading();
}
