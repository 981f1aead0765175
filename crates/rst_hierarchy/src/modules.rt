// The modules of a design, and their names.

ghost use Rattle.std.specs.Prelude.{◌≡◌, ◌++◌, map, nat_eq, IfOk, OnOk};
ghost use Rattle.std.specs.List.{flat_map};
ghost use Rattle.std.specs.Cmp.Lexicographic.{pointwise};
ghost use Rattle.indexmap.specs.IndexMap.{get};
ghost use Rattle.rst_tree.specs.Trees.{Text};
ghost use Rattle.rst_tree.specs.Modules.{Instances, plain_module, plain_source, plain_instance, plain_item};
ghost use Rattle.rst_names.specs.Names.{same_text};
ghost use Rattle.rst_names.specs.Tables.{or_here};
ghost use Rattle.rst_hierarchy.specs.Hierarchy.{placed_by};
ghost use Rattle.rst_hierarchy.specs.Tables.{modules_in, plain_modules, place_named, places_named, placed, IsTable};

use indexmap::IndexMap;
use rst_outside::{Name, NoMemory};
use rst_tree::{Instance, Item, Module, Source};
use std::alloc::{AllocError, Global};

/// The modules of all files, in the order of files and texts, and the place of each name's first.
#[derive(Drop)]
pub struct Modules<'a> {
    pub list: Vec<&'a Module>,
    pub places: IndexMap<Name, usize>,
}

impl<'a> Modules<'a> {
    /// The place of the module of this name.
    pub fn place(&self, name: &Name) -> Option<usize>
        ensures { IsTable self.now → result ≡ place_named (plain_modules self.now) name.now }
    {
        self.places.get(name).copied()
    }
}

fn push_modules<'a>(source: &'a Source, list: &mut Vec<&'a Module>) -> Result<(), AllocError>
    ensures { OnOk result (map (λ r. plain_module r.now) list.new.items ≡ map (λ r. plain_module r.now) list.old.items ++ plain_source source.now) }
{
    for module in &source.modules {
        list.push(module)?;
    }
    Ok(())
}

fn listed<'a>(alloc: Global, sources: &'a [Source]) -> Result<Vec<&'a Module>, AllocError>
    ensures { IfOk result (λ list. map (λ r. plain_module r.now) list.items ≡ modules_in sources.now) }
{
    let mut list = Vec::new(alloc);
    for source in sources {
        push_modules(source, &mut list)?;
    }
    Ok(list)
}

// The table with a place for this name, where it has none.
fn put_place(
    alloc: Global,
    name: &Name,
    place: usize,
    made: &mut IndexMap<Name, usize>,
) -> Result<(), NoMemory>
    ensures { OnOk result ((q : Text) → get (pointwise nat_eq) made.new q ≡ or_here (get (pointwise nat_eq) made.old q) (same_text name.now q) place) }
{
    if made.contains_key(name) {
        return Ok(());
    }
    made.insert(Name::new(alloc, name.as_slice())?, place)?;
    Ok(())
}

// The place of each name's first module.
fn places(alloc: Global, list: &[&Module]) -> Result<IndexMap<Name, usize>, NoMemory>
    ensures { IfOk result (λ made. (name : Text) → get (pointwise nat_eq) made name ≡ place_named (map (λ r. plain_module r.now) list.now) name) }
{
    let mut made: IndexMap<Name, usize> = IndexMap::new(alloc);
    for (place, module) in list.iter().enumerate() {
        put_place(alloc, &module.name, place, &mut made)?;
    }
    Ok(made)
}

/// The modules of these files.
pub fn modules_of<'a>(alloc: Global, sources: &'a [Source]) -> Result<Modules<'a>, NoMemory>
    ensures modules { IfOk result (λ m. plain_modules m ≡ modules_in sources.now) }
    ensures table { IfOk result IsTable }
{
    let list = listed(alloc, sources)?;
    let places = places(alloc, &list)?;
    Ok(Modules { list, places })
}

fn push_copies(
    instance: &Instance,
    modules: &Modules,
    made: &mut Vec<usize>,
) -> Result<(), AllocError>
    requires { IsTable modules.now }
    ensures { OnOk result (made.new.items ≡ made.old.items ++ places_named (plain_modules modules.now) (placed_by (Instances (plain_instance instance.now)))) }
{
    if let Some(place) = modules.place(&instance.module) {
        for _copy in &instance.copies {
            made.push(place)?;
        }
    }
    Ok(())
}

fn push_placed(item: &Item, modules: &Modules, made: &mut Vec<usize>) -> Result<(), AllocError>
    requires { IsTable modules.now }
    ensures { OnOk result (made.new.items ≡ made.old.items ++ places_named (plain_modules modules.now) (placed_by (plain_item item.now))) }
{
    if let Item::Instance(instance) = item {
        return push_copies(instance, modules, made);
    }
    Ok(())
}

// The places of the modules that a module places, one for each instance.
fn placed(alloc: Global, items: &[Item], modules: &Modules) -> Result<Vec<usize>, AllocError>
    requires { IsTable modules.now }
    ensures { IfOk result (λ made. made.items ≡ places_named (plain_modules modules.now) (flat_map placed_by (map plain_item items.now))) }
{
    let mut made = Vec::new(alloc);
    for item in items {
        push_placed(item, modules, &mut made)?;
    }
    Ok(made)
}

// For each module, the places of those that it places.
pub fn all_placed(alloc: Global, modules: &Modules) -> Result<Vec<Vec<usize>>, AllocError>
    requires { IsTable modules.now }
    ensures { IfOk result (λ made. map (λ v. v.items) made.items ≡ map (placed (plain_modules modules.now)) (plain_modules modules.now)) }
{
    let mut made = Vec::new(alloc);
    for module in &modules.list {
        let places = placed(alloc, &module.items, modules)?;
        made.push(places)?;
    }
    Ok(made)
}
