// The clauses of one gate.
ghost use Rattle.std.specs.Prelude.{◌≡◌, ◌^◌, ◌<◌, IfOk, unsigned_abs};
ghost use Rattle.rst_clause.specs.Operations.{and_clauses, xor_clauses, mux_clauses};

use crate::{ClauseStore, Lit};
use rst_outside::NoMemory;
use std::alloc::Global;

/// The clauses that say that `z` is `a` and `b`.
pub fn of_and(alloc: Global, z: Lit, a: Lit, b: Lit) -> Result<ClauseStore, NoMemory>
    requires small_z { unsigned_abs z < 2 ^ 31 }
    requires small_a { unsigned_abs a < 2 ^ 31 }
    requires small_b { unsigned_abs b < 2 ^ 31 }
    ensures { IfOk result (λ s. s ≡ and_clauses z a b) }
{
    let mut clauses = ClauseStore::new(alloc);
    clauses.push(&[z.opposite(), a])?;
    clauses.push(&[z.opposite(), b])?;
    clauses.push(&[z, a.opposite(), b.opposite()])?;
    Ok(clauses)
}

/// The clauses that say that `z` is the exclusive or of `a` and `b`.
pub fn of_xor(alloc: Global, z: Lit, a: Lit, b: Lit) -> Result<ClauseStore, NoMemory>
    requires small_z { unsigned_abs z < 2 ^ 31 }
    requires small_a { unsigned_abs a < 2 ^ 31 }
    requires small_b { unsigned_abs b < 2 ^ 31 }
    ensures { IfOk result (λ s. s ≡ xor_clauses z a b) }
{
    let mut clauses = ClauseStore::new(alloc);
    clauses.push(&[z.opposite(), a, b])?;
    clauses.push(&[z.opposite(), a.opposite(), b.opposite()])?;
    clauses.push(&[z, a.opposite(), b])?;
    clauses.push(&[z, a, b.opposite()])?;
    Ok(clauses)
}

/// The clauses that say that `z` is `one` where `select` holds, and `zero` elsewhere.
pub fn of_mux(
    alloc: Global,
    z: Lit,
    select: Lit,
    one: Lit,
    zero: Lit,
) -> Result<ClauseStore, NoMemory>
    requires small_z { unsigned_abs z < 2 ^ 31 }
    requires small_select { unsigned_abs select < 2 ^ 31 }
    requires small_one { unsigned_abs one < 2 ^ 31 }
    requires small_zero { unsigned_abs zero < 2 ^ 31 }
    ensures { IfOk result (λ s. s ≡ mux_clauses z select one zero) }
{
    let mut clauses = ClauseStore::new(alloc);
    clauses.push(&[z.opposite(), select.opposite(), one])?;
    clauses.push(&[z, select.opposite(), one.opposite()])?;
    clauses.push(&[z.opposite(), select, zero])?;
    clauses.push(&[z, select, zero.opposite()])?;
    Ok(clauses)
}
