// A reading of gates that says what lies below each node.
ghost use Rattle.std.specs.Prelude.{◌≡◌, [], None, true, length, IfOk};
ghost use Rattle.rst_gate.specs.ClosedSets.{next_support};
ghost use Rattle.rst_sim.specs.Supports.{supports};

use rst_gate::{Gates, eval};
use rst_outside::NoMemory;
use rst_value::Domain;
use std::alloc::Global;

/// Whether only inputs and registers of a set lie below a node.
///
/// Constants and inputs do, a register where it is in the set, and a gate where all its operands
/// do. The domain claims nothing of bits: what it says of gates is its named results.
#[derive(Clone, Copy, Debug)]
pub struct SupportDomain;

impl Domain for SupportDomain {
    type Val = bool;

    ghost stands = { λ _ _ _ _. Unit {0} };

    ghost content = { λ _. [] };

    ghost aside = { λ _. tt };

    ghost named = { supports };

    ghost held = { λ _ _. Unit {0} };

    ghost spare = { λ _. None };

    fn constant(&mut self, _: bool) -> Result<bool, NoMemory> {
        Ok(true)
    }

    fn not(&mut self, a: bool) -> Result<bool, NoMemory> {
        Ok(a)
    }

    fn and(&mut self, a: bool, b: bool) -> Result<bool, NoMemory> {
        Ok(a && b)
    }

    fn xor(&mut self, a: bool, b: bool) -> Result<bool, NoMemory> {
        Ok(a && b)
    }

    fn mux(&mut self, select: bool, one: bool, zero: bool) -> Result<bool, NoMemory> {
        Ok(select && one && zero)
    }
}

/// Of each register, whether only inputs and registers of the set lie below its next value.
pub fn support(alloc: Global, gates: &Gates, set: &[bool]) -> Result<Vec<bool>, NoMemory>
    requires { length set.now ≡ gates.now.states }
    ensures value { IfOk result (λ v. v.items ≡ next_support gates.now set.now) }
    ensures count { IfOk result (λ v. length v.items ≡ gates.now.states) }
{
    let inputs = vec![in alloc; true; gates.inputs as usize]?;
    let frame = eval(alloc, gates, &mut SupportDomain, inputs.as_slice(), set)?;
    Ok(frame.nexts)
}
