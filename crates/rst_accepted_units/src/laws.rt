//! The units, clocked blocks and widths of every design that elaboration accepts.

ghost use Rattle.std.specs.Prelude.{◌≡◌, ℕ, ◌≤◌, None};
ghost use Rattle.std.specs.List.{Contains};
ghost use Rattle.rst_net.specs.Units.{PlainDriver, PlainFlat};
ghost use Rattle.rst_cycle.specs.Signals.{width_of};
ghost use Rattle.rst_blocks.specs.Blocks.{wrong_set};
ghost use Rattle.rst_settled.specs.Designs.{UnitSound};
ghost use Rattle.rst_agreement.specs.Fits.{DesignFits};
ghost use Rattle.rst_accepted.specs.Elaborated.{IsElaborated};

/// No signal of it has more than 64 bits.
pub fn widths_are_small()
    ensures { (flat : PlainFlat) → IsElaborated flat → (i : ℕ) → width_of flat.signals i ≤ 64 }
{}

/// The targets of its units lie inside their signals, and its full cases take one of their ways.
pub fn units_are_sound()
    ensures { (flat : PlainFlat) → IsElaborated flat → (unit : PlainDriver) → Contains flat.units unit → UnitSound (width_of flat.signals) unit }
{}

/// Where the sets of its combinational blocks are blocking and those of its clocked blocks nonblocking, all that its units and
/// clocked blocks read, set and compare has the widths that the places ask for.
pub fn expressions_fit()
    ensures { (flat : PlainFlat) → IsElaborated flat → wrong_set flat.units flat.clocked ≡ None → DesignFits flat }
{}
