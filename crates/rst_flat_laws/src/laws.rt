//! Laws of flat designs.

ghost use Rattle.std.specs.Prelude.{◌≡◌, None};
ghost use Rattle.rst_net.specs.Units.{PlainFlat};
ghost use Rattle.rst_names.specs.Faults.{first};
ghost use Rattle.rst_drivers.specs.FlatRows.{flat_faults};
ghost use Rattle.rst_flow.specs.Nets.{HasFewBits};

/// A flat design that passes the rows of drivers and limits has few enough bits for a netlist.
pub fn few_bits()
    ensures { (flat : PlainFlat) → first (flat_faults flat) ≡ None → HasFewBits flat.signals flat.outputs }
{}
