//! What drives the signals of a design that elaboration accepts, and what their resets are.

ghost use Rattle.std.specs.Prelude.{◌≡◌, ℕ, true, Some};
ghost use Rattle.std.specs.List.{Contains};
ghost use Rattle.rst_net.specs.declared.signal.Role.TheVariants.{Input};
ghost use Rattle.rst_net.specs.declared.unit.Reset.{Reset};
ghost use Rattle.rst_net.specs.Units.{PlainDriver, PlainProcess, PlainFlat};
ghost use Rattle.rst_cycle.specs.Signals.{role_of, is_wired};
ghost use Rattle.rst_cycle.specs.Drivers.{drives};
ghost use Rattle.rst_accepted.specs.Elaborated.{IsElaborated};
ghost use Rattle.rst_settled.specs.Designs.{SetsOnce, HaveOneDriver};

use rst_accepted_units::laws::units_are_sound;

/// No bit stands twice in the target of an assign or a link.
pub fn units_drive_once()
    ensures { (flat : PlainFlat) → IsElaborated flat → (unit : PlainDriver) → Contains flat.units unit → SetsOnce unit }
{
    units_are_sound();
}

/// No two units drive one bit.
pub fn one_driver()
    ensures { (flat : PlainFlat) → IsElaborated flat → HaveOneDriver flat.units }
{
    units_are_sound();
}

/// Units drive neither inputs nor registers nor clocks.
pub fn wires_are_driven()
    ensures { (flat : PlainFlat) → IsElaborated flat → (unit : PlainDriver) (i place : ℕ) → Contains flat.units unit → drives unit i place ≡ true → is_wired (role_of flat.signals i) ≡ true }
{}

/// Resets are inputs of the top.
pub fn resets_are_inputs()
    ensures { (flat : PlainFlat) → IsElaborated flat → (process : PlainProcess) (reset : Reset) → Contains flat.clocked process → process.reset ≡ Some reset → role_of flat.signals reset.signal ≡ Input }
{}
