// What a design is elaborated from, and its instances with their signals.

ghost use Rattle.std.specs.Prelude.{◌≡◌, ◌∷◌, ◌<◌, List, [], length, nat_eq, IsSome, IfSome, IfOk, OnOk};
ghost use Rattle.std.specs.Cmp.Lexicographic.{pointwise};
ghost use Rattle.indexmap.specs.IndexMap.{get};
ghost use Rattle.rst_tree.specs.Trees.{Text};
ghost use Rattle.rst_tree.specs.Modules.{PlainModule};
ghost use Rattle.rst_width.specs.Scopes.{later_of, either_of};
ghost use Rattle.rst_names.specs.Tables.{plain_declaration, IsFacts};
ghost use Rattle.rst_hierarchy.specs.Tables.{plain_modules, IsTable, AreFacts};
ghost use Rattle.rst_instances.specs.Parameters.{names_from, laters, unshaped};
ghost use Rattle.rst_instances.specs.Tables.{later_names, module_at, AreTables, IsDesign};

use crate::noting::note;
use crate::places::Place;
use indexmap::IndexMap;
use rst_hierarchy::Modules;
use rst_names::{Declaration, Facts};
use rst_outside::{Name, NoMemory};
use rst_width::{Scope, SignalShape, Unshaped, UnshapedNames};
use std::alloc::Global;

/// The modules of a design with their tables.
#[derive(Drop)]
pub struct Design<'a, 'm> {
    pub modules: &'m Modules<'a>,
    pub facts: &'m [Facts<'a>],
    /// For each module its names before they have a width and sign.
    pub unshaped: Vec<UnshapedNames>,
}

/// An instance whose ranges are worked out.
#[derive(Drop)]
pub struct Located<'a> {
    pub place: Place<'a>,
    /// The number of its first signal in flat order.
    pub base: u32,
    /// The shapes of its signals.
    pub shapes: Vec<SignalShape>,
    /// What its names stand for.
    pub names: Scope,
}

/// The tables of one module: its facts, and its names before they have a width and sign.
#[derive(Clone, Copy)]
pub struct Tables<'a, 'd> {
    pub facts: &'d Facts<'a>,
    pub unshaped: &'d UnshapedNames,
}

// The tables of the module at a place, if there is one.
pub fn tables_at<'a, 'd>(design: &'d Design<'a, '_>, of: usize) -> Option<Tables<'a, 'd>>
    ensures found { (modules : List PlainModule) → IsDesign modules design.now → of < length modules → IsSome result }
    ensures within { (modules : List PlainModule) → IsDesign modules design.now → IfSome result (λ t. of < length modules) }
    ensures right { (modules : List PlainModule) → IsDesign modules design.now → IfSome result (AreTables (module_at modules of)) }
{
    let facts = design.facts.get(of)?;
    let unshaped = design.unshaped.as_slice().get(of)?;
    Some(Tables { facts, unshaped })
}

// A declared name, where an expression may use it.
fn note_later(
    alloc: Global,
    d: Declaration,
    entries: &mut IndexMap<Name, Unshaped>,
) -> Result<(), NoMemory>
    ensures { OnOk result ((name : Text) → later_of (get (pointwise nat_eq) entries.new name) ≡ either_of (later_of (get (pointwise nat_eq) entries.old name)) (names_from (laters (plain_declaration d.entry ∷ [])) name)) }
{
    if d.form.is_value() {
        let ranged = d.form.is_signal() && d.range.is_some();
        note(alloc, entries, d.name, Unshaped { ranged })?;
    }
    Ok(())
}

fn unshaped_names(alloc: Global, facts: &Facts) -> Result<UnshapedNames, NoMemory>
    ensures { (m : PlainModule) → IsFacts m facts.now → IfOk result (λ u. later_names u ≡ names_from (unshaped m)) }
{
    let mut entries: IndexMap<Name, Unshaped> = IndexMap::new(alloc);
    for d in &facts.declarations {
        note_later(alloc, *d, &mut entries)?;
    }
    Ok(UnshapedNames { entries })
}

/// The design of these modules.
pub fn design_of<'a, 'm>(
    alloc: Global,
    modules: &'m Modules<'a>,
    facts: &'m [Facts<'a>],
) -> Result<Design<'a, 'm>, NoMemory>
    ensures { IsTable modules.now → AreFacts (plain_modules modules.now) facts.now → IfOk result (IsDesign (plain_modules modules.now)) }
{
    let mut unshaped = Vec::new(alloc);
    for one in facts {
        let names = unshaped_names(alloc, one)?;
        unshaped.push(names)?;
    }
    Ok(Design {
        modules,
        facts,
        unshaped,
    })
}
