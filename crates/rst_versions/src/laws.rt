//! Free bits by version.
ghost use Rattle.std.specs.Prelude.{◌≡◌, ℕ, List, Ok};
ghost use Rattle.rst_outside.specs.declared.names.PortBits.{PortBits};
ghost use Rattle.rst_value.specs.declared.tern.Tern.{Tern};
ghost use Rattle.rst_gate.specs.Patterns.{free_bits};
ghost use Rattle.rst_script.specs.Scripts.{PlainScript, script_of};
ghost use Rattle.rst_script.specs.Fitting.{fit_of};

/// A pattern that a script of version 1 gives has no free bit.
pub fn version_1_has_no_free_bits()
    ensures { (text : List ℕ) (script : PlainScript) (ports : List PortBits) (pattern : List (List Tern)) → script_of text ≡ Ok script → script.version ≡ 1
        → fit_of ports script.steps ≡ Ok pattern → free_bits pattern ≡ 0 }
{}
