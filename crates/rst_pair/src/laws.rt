ghost use Rattle.std.specs.Prelude.{◌≡◌, ◌++◌, Bool, true, List, length, map};
ghost use Rattle.rst_value.specs.declared.tern.Tern.{Tern};
ghost use Rattle.rst_value.specs.Terns.{known};
ghost use Rattle.rst_gate.specs.Machine.{SameAcross};
ghost use Rattle.rst_gate.specs.MachineLaws.{IsInductive};
ghost use Rattle.rst_pair.specs.Sides.{Sides, AreSides, IsPair, left_machine, right_machine};
ghost use Rattle.rst_pair.specs.Aims.{Aim', AimIsWide, Leads, LeadsAll, passes};
ghost use Rattle.rst_pair.specs.Fronts.{Front', IsRelated, relation};

/// What one three-valued cycle from a cube shows holds of every pair of the cube.
pub fn passing_hops_are_right()
    ensures { (p : Sides) (aim : Aim') (cube : List Tern) (input : List Bool) → passes p aim input cube ≡ true → LeadsAll p aim cube input }
{}

/// Of a cube that holds one pair, one three-valued cycle shows where the input leads it.
pub fn one_pair_passes()
    ensures { (p : Sides) (aim : Aim') (s t input : List Bool) → AreSides p → AimIsWide p aim → IsPair p s t → length input ≡ p.left.inputs → Leads p aim input s t → passes p aim input (map known (s ++ t)) ≡ true }
{}

/// Where the relation of a front is inductive, its pairs behave the same.
pub fn relations_keep_behaviour()
    ensures { (p : Sides) (f : Front') → AreSides p → IsInductive (left_machine p) (right_machine p) (relation f) → (s t : List Bool) → IsPair p s t → IsRelated f s t → SameAcross (left_machine p) (right_machine p) s t }
{}
