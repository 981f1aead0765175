//! What holds of the definitions alone.
ghost use Rattle.std.specs.Prelude.{◌≡◌, ℕ, List, Ok, Err, length};
ghost use Rattle.rst_outside.specs.declared.names.PortBits.{PortBits};
ghost use Rattle.rst_value.specs.declared.tern.Tern.{Tern};
ghost use Rattle.rst_script.specs.declared.script.ScriptFault.{ScriptFault};
ghost use Rattle.rst_script.specs.Lines.{lines};
ghost use Rattle.rst_script.specs.Steps.{PlainStep};
ghost use Rattle.rst_script.specs.Scripts.{PlainScript, script_of};
ghost use Rattle.rst_script.specs.Fitting.{fit_of};
ghost use Rattle.rst_script.specs.Limits.{IsScript, IsFit, IsReadFault, IsFitFault};

/// A script that a text says keeps the limits of scripts.
pub fn scripts_keep_limits()
    ensures { (text : List ℕ) (script : PlainScript) → script_of text ≡ Ok script → IsScript script }
{}

/// A pattern that steps give has the shape that the inputs and the steps say, and few free bits.
pub fn patterns_fit()
    ensures { (ports : List PortBits) (steps : List PlainStep) (pattern : List (List Tern)) → fit_of ports steps ≡ Ok pattern → IsFit ports steps pattern }
{}

/// A text is refused as `BadLine`, `Repeated` or `TooMany`, at one of its lines or, where it ends too early, at the line
/// behind its last. Steps are refused as `BadName`, `BadValue` or `TooFree`, at the line of one of them.
pub fn refusals_name_lines()
    ensures read { (text : List ℕ) (fault : ScriptFault) → script_of text ≡ Err fault → IsReadFault (length (lines text)) fault }
    ensures fit { (ports : List PortBits) (steps : List PlainStep) (fault : ScriptFault) → fit_of ports steps ≡ Err fault → IsFitFault steps fault }
{}
