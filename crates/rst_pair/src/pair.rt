use rst_gate::Gates;
use std::marker::Model;

/// Two designs that are compared, with equal numbers of inputs and of outputs. For one design both
/// sides are its gates.
#[derive(Debug, Drop)]
pub struct Pair<'a> {
    pub left: &'a Gates,
    pub right: &'a Gates,
}

impl<'a> Model for Pair<'a> {
    ghost use Rattle.rst_gate.specs.Machine.{HaveSamePorts};
    ghost use Rattle.rst_gate.specs.GateMachines.{machine_of};
    ghost use Rattle.rst_pair.specs.Sides.{Sides};

    ghost Value = { Sides };

    ghost view = { λ p. record { left = p.left.now; right = p.right.now } };

    ghost invariant = { λ p. HaveSamePorts (machine_of p.left.now) (machine_of p.right.now) };
}
