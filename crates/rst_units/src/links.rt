// The links of instances as assigns.

ghost use Rattle.std.specs.Prelude.{◌≡◌, [], IfOk, OnOk, IfErr};
ghost use Rattle.rst_tree.specs.Trees as trees;
ghost use Rattle.rst_tree.specs.Trees.{plain};
ghost use Rattle.rst_width.specs.Scopes.{names_of};
ghost use Rattle.rst_width.specs.Typed.{plain_typed};
ghost use Rattle.rst_width.specs.Answers.{typed_answer};
ghost use Rattle.rst_net.specs.Statements.{plain_set};
ghost use Rattle.rst_instances.specs.Tables.{plain_linked};
ghost use Rattle.rst_typing.specs.Typing.{typed_at, answer_faults};
ghost use Rattle.rst_typing.specs.Refusals.{IsFirst};
ghost use Rattle.rst_items.specs.Items.{input_set, output_set, link_units};
ghost use Rattle.rst_items.specs.ItemRows.{link_faults};
ghost use Rattle.rst_items.specs.Tables.{seen_site};
ghost use Rattle.rst_units.specs.Sets.{set_units};

use crate::blocks::number_at;
use rst_instances::{Joined, Linked};
use rst_items::Site;
use rst_net::{Slice, TypedSet};
use rst_outside::{Name, NoMemory};
use rst_tree::Expr;
use rst_typing::{slices_of, typed_or};
use rst_width::{Scope, TypedExpr, WidthFault, typed};
use std::alloc::Global;

#[tactic(auto, using(rst_typing::proofs::Faults::firsts))]
fn input_unit(
    alloc: Global,
    names: &Scope,
    inner: Site,
    link: Linked,
) -> Result<TypedSet, WidthFault>
    ensures exact { IfOk result (λ s. plain_set s ≡ input_set (names_of names.now) (seen_site inner.entry) (plain_linked link.entry)) }
    ensures passes { OnOk result (answer_faults (typed_answer (names_of names.now) (plain link.entry.value.now) ((seen_site inner.entry).width link.entry.name.now)) ≡ []) }
    ensures refused { IfErr result (λ e. IsFirst e (answer_faults (typed_answer (names_of names.now) (plain link.entry.value.now) ((seen_site inner.entry).width link.entry.name.now)))) }
{
    let width = inner.width_of(link.name);
    let value = Box::new(alloc, typed(alloc, link.value, names, width)?)?;
    let mut target = Vec::new(alloc);
    target.push(Slice {
        signal: number_at(&inner.located.names, link.name),
        low: 0,
        width,
    })?;
    Ok(TypedSet {
        target,
        value,
        blocking: true,
    })
}

// What a port reads in a context of this width, with a plain default where that is faulty.
fn port_value(
    alloc: Global,
    inner: Site,
    name: &Name,
    context: u8,
) -> Result<Box<TypedExpr>, NoMemory>
    ensures { IfOk result (λ b. plain_typed b.value ≡ typed_at (seen_site inner.entry).names (trees.Name name.now) context) }
{
    let port = Box::new(alloc, Expr::Name(Name::new(alloc, name.as_slice())?))?;
    let value = typed_or(typed(alloc, &port, &inner.located.names, context))?;
    Ok(Box::new(alloc, value)?)
}

#[tactic(auto, using(rst_typing::proofs::Faults::firsts))]
fn output_unit(
    alloc: Global,
    names: &Scope,
    inner: Site,
    link: Linked,
) -> Result<TypedSet, WidthFault>
    ensures exact { IfOk result (λ s. plain_set s ≡ output_set (names_of names.now) (seen_site inner.entry) (plain_linked link.entry)) }
    ensures passes { OnOk result (answer_faults (typed_answer (names_of names.now) (plain link.entry.value.now) 0) ≡ []) }
    ensures refused { IfErr result (λ e. IsFirst e (answer_faults (typed_answer (names_of names.now) (plain link.entry.value.now) 0))) }
{
    let target = Box::new(alloc, typed(alloc, link.value, names, 0)?)?;
    let slices = slices_of(alloc, &target)?;
    let value = port_value(alloc, inner, link.name, target.width)?;
    Ok(TypedSet {
        target: slices,
        value,
        blocking: true,
    })
}

/// The unit of a link, unless it is the link of a clock name.
#[tactic(auto, using(rst_typing::proofs::Faults::firsts))]
pub fn link_unit(
    alloc: Global,
    names: &Scope,
    inner: Site,
    link: Linked,
) -> Result<Option<Box<TypedSet>>, WidthFault>
    ensures exact { IfOk result (λ o. set_units o ≡ link_units (names_of names.now) (seen_site inner.entry) (plain_linked link.entry)) }
    ensures passes { OnOk result (link_faults (names_of names.now) (seen_site inner.entry) (plain_linked link.entry) ≡ []) }
    ensures refused { IfErr result (λ e. IsFirst e (link_faults (names_of names.now) (seen_site inner.entry) (plain_linked link.entry))) }
{
    let set = if inner.is_input(link.name) {
        Box::new(alloc, input_unit(alloc, names, inner, link)?)?
    } else {
        Box::new(alloc, output_unit(alloc, names, inner, link)?)?
    };
    match inner.located.place.joined(inner.facts, link.name) {
        Joined::ToClock => Ok(None),
        _ => Ok(Some(set)),
    }
}
