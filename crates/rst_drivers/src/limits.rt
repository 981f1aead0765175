// The limits of bits.

ghost use Rattle.std.specs.Prelude.{◌≡◌, ◌<◌, ◌^◌, nat_lt, map, slice_get, None, IfErr, OnOk};
ghost use Rattle.std.specs.List.{sum_by};
ghost use Rattle.rst_net.specs.Units.{plain_signal, plain_flat};
ghost use Rattle.rst_names.specs.Faults.{Refuses, first};
ghost use Rattle.rst_drivers.specs.FlatRows.{counts, bits_where, width_or, bit_limits};

use rst_names::{ElabCode, ElabError, refusal};
use rst_net::{Flat, Role, Signal};
use std::alloc::Global;

// The signals whose bits a limit counts.
#[derive(Clone, Copy)]
pub enum Limited {
    Registers,
    Inputs,
}

fn counts(limited: Limited, role: Role) -> bool
    ensures { result ≡ counts limited role }
{
    match (limited, role) {
        (Limited::Registers, Role::Register) => true,
        (Limited::Inputs, Role::Input) => true,
        _ => false,
    }
}

// Whether there are more bits than the limit.
fn is_over(signals: &[Signal], limited: Limited, limit: u16) -> bool
    ensures { result ≡ nat_lt limit (bits_where (counts limited) (map plain_signal signals.now)) }
{
    let mut sum = 0u32;
    for signal in signals {
        if counts(limited, signal.role) {
            sum += signal.shape.width as u32;
            if sum > limit as u32 {
                return true;
            }
        }
    }
    false
}

fn width_at(signals: &[Signal], number: u32) -> u8
    ensures { result ≡ width_or (slice_get (map plain_signal signals.now) number) }
{
    match signals.get(number as usize) {
        None => 0,
        Some(signal) => signal.shape.width,
    }
}

fn are_outputs_over(signals: &[Signal], outputs: &[u32], limit: u16) -> bool
    ensures { result ≡ nat_lt limit (sum_by (λ o. width_or (slice_get (map plain_signal signals.now) o)) outputs.now) }
{
    let mut sum = 0u32;
    for output in outputs {
        sum += width_at(signals, *output) as u32;
        if sum > limit as u32 {
            return true;
        }
    }
    false
}

// The limits of bits hold.
#[tactic(auto, using(rst_names::proofs::RowLemmas::rows))]
pub fn limits_pass(alloc: Global, flat: &Flat) -> Result<(), ElabError>
    ensures passes { OnOk result (first (bit_limits (plain_flat flat.now)) ≡ None) }
    ensures refused { IfErr result (λ e. Refuses e (bit_limits (plain_flat flat.now))) }
{
    if is_over(&flat.signals, Limited::Registers, 512) {
        return Err(refusal(alloc, ElabCode::Limit, b"Registers", 0));
    }
    if is_over(&flat.signals, Limited::Inputs, 256) {
        return Err(refusal(alloc, ElabCode::Limit, b"Inputs", 0));
    }
    if are_outputs_over(&flat.signals, &flat.outputs, 256) {
        return Err(refusal(alloc, ElabCode::Limit, b"Outputs", 0));
    }
    Ok(())
}
