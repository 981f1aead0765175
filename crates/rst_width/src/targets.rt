// Sizing a target: as the expression of the same text.

ghost use Rattle.std.specs.Prelude.{◌≡◌, IfOk, false};
ghost use Rattle.rst_tree.specs.Targets.{plain_target, plain_targets};
ghost use Rattle.rst_width.specs.Plain.{plain_sized, plain_parts};
ghost use Rattle.rst_width.specs.Scopes.{names_with};
ghost use Rattle.rst_width.specs.Sizing.{sized, sized_parts};
ghost use Rattle.rst_width.specs.Targets.{target_expr, target_exprs};
ghost use Rattle.rst_width.specs.Cut.{cut, cut_parts, IsFitSized};

use crate::names::{UnshapedNames, stands_for};
use crate::parts::{Parts, join_sized, with_next};
use crate::scope::Scope;
use crate::selects::bit_found;
use crate::sized::SizedExpr;
use crate::sizing::{named, one_bit, part_sized, sized_by_itself};
use rst_outside::NoMemory;
use rst_tree::Target;
use std::alloc::Global;

// A target, sized.
#[cycle(targets)]
pub fn sized_target(
    alloc: Global,
    target: &Target,
    scope: &Scope,
    unshaped: &UnshapedNames,
) -> Result<SizedExpr, NoMemory>
    ensures exact { IfOk result (λ s. plain_sized s ≡ cut (sized false (names_with scope.now unshaped.now) (target_expr (plain_target target.now)))) }
    ensures fit { IfOk result (λ s. IsFitSized (plain_sized s)) }
{
    sized_place(alloc, target, scope, unshaped)
}

#[cycle(targets)]
fn sized_place(
    alloc: Global,
    target: &Target,
    scope: &Scope,
    unshaped: &UnshapedNames,
) -> Result<SizedExpr, NoMemory>
    ensures { IfOk result (λ s. plain_sized s ≡ cut (sized false (names_with scope.now unshaped.now) (target_expr (plain_target target.now)))) }
{
    match target {
        Target::Whole(name) => named(alloc, false, name, stands_for(scope, unshaped, name)),
        Target::Bit(name, index) => {
            let index = sized_by_itself(alloc, false, index, scope, unshaped)?;
            let found = bit_found(alloc, false, name, stands_for(scope, unshaped, name), index)?;
            Ok(SizedExpr::Leaf(one_bit(), found))
        }
        Target::Part(name, high, low) => {
            let high = sized_by_itself(alloc, false, high, scope, unshaped)?;
            match sized_by_itself(alloc, false, low, scope, unshaped) {
                Ok(low) => part_sized(
                    alloc,
                    false,
                    name,
                    stands_for(scope, unshaped, name),
                    high,
                    low,
                ),
                Err(no_memory) => {
                    drop(high);
                    Err(no_memory)
                }
            }
        }
        Target::Join(parts) => Ok(join_sized(sized_places(alloc, parts, scope, unshaped)?)),
    }
}

// The parts of a target.
#[cycle(targets)]
fn sized_places(
    alloc: Global,
    targets: &[Target],
    scope: &Scope,
    unshaped: &UnshapedNames,
) -> Result<Parts, NoMemory>
    ensures { IfOk result (λ p. plain_parts p ≡ cut_parts (sized_parts false (names_with scope.now unshaped.now) (target_exprs (plain_targets targets.now)))) }
{
    let mut parts = Parts {
        width: 0,
        list: Ok(Vec::new(alloc)),
    };
    for target in targets {
        let next = sized_target(alloc, target, scope, unshaped)?;
        parts = with_next(alloc, parts, next)?;
    }
    Ok(parts)
}
