// How many bits statements set.

ghost use Rattle.std.specs.Prelude.{◌≡◌, IfOk};
ghost use Rattle.rst_net.specs.Statements.{plain_stmt};
ghost use Rattle.rst_cycle.specs.Drivers.{target_has};
ghost use Rattle.rst_weight.specs.Counts.{bits_among, bits_set};
ghost use Rattle.rst_weight.specs.Plain.{cut, is_fresh, fresh, first_fresh};

use rst_blocks::{set_in, slice_has, target_has};
use rst_net::{Slice, TypedStmt};
use std::alloc::{AllocError, Global};

fn is_fresh(slice: Slice, others: &[Slice], place: u8) -> bool
    ensures { result ≡ is_fresh slice others.now place }
{
    slice_has(slice, slice.signal, place) && !target_has(others, slice.signal, place)
}

/// How many bits of a slice none of some others has.
fn fresh(slice: Slice, others: &[Slice]) -> u64
    ensures { result ≡ fresh slice others.now }
{
    let mut sum = 0u64;
    for place in 0..64u8 {
        if is_fresh(slice, others, place) {
            sum += 1;
        }
    }
    sum
}

/// How many bits of the first slice none of the others has, if its signal is below a number.
fn first_fresh(slices: &[Slice], count: usize) -> u64
    ensures { result ≡ first_fresh slices.now count }
{
    match slices {
        [] => 0,
        [slice, others @ ..] => {
            if (slice.signal as usize) < count {
                fresh(*slice, others)
            } else {
                0
            }
        }
    }
}

/// How many bits of the signals below a number some slices have.
fn bits_among(count: usize, slices: &[Slice]) -> u64
    ensures { result ≡ cut (bits_among (target_has slices.now) count) }
{
    let mut sum = 0u64;
    for index in 0..slices.len() {
        sum = sum.saturating_add(first_fresh(&slices[index..], count));
    }
    sum
}

/// How many bits of the signals below a number a statement sets anywhere, or the greatest number where there are more.
#[tactic(auto, using(crate::proofs::Sums::targets))]
pub fn bits_set(alloc: Global, count: usize, stmt: &TypedStmt) -> Result<u64, AllocError>
    ensures { IfOk result (λ bits. bits ≡ cut (bits_set count (plain_stmt stmt.now))) }
{
    let mut slices = Vec::new(alloc);
    set_in(stmt, &mut slices)?;
    Ok(bits_among(count, &slices))
}
