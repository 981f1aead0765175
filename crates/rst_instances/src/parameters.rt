// The values of the parameters of an instance.

ghost use Rattle.std.specs.Prelude.{◌≡◌, ◌++◌, ◌∷◌, [], ◌%◌, ◌^◌, ◌<◌, nat_eq, map, IfOk, OnOk};
ghost use Rattle.std.specs.List.{filter_map, flat_map};
ghost use Rattle.std.specs.Option.{option_map};
ghost use Rattle.std.specs.Cmp.Lexicographic.{pointwise};
ghost use Rattle.indexmap.specs.IndexMap.{get};
ghost use Rattle.rst_word.specs.Plain.{plain_word};
ghost use Rattle.rst_tree.specs.Trees.{Text, plain};
ghost use Rattle.rst_tree.specs.Modules.{PlainModule, plain_link, plain_links, plain_param_name, plain_param_decl, plain_item};
ghost use Rattle.rst_width.specs.Scopes.{Names, meaning_of, either_of, names_with};
ghost use Rattle.rst_names.specs.Declarations.{item_params};
ghost use Rattle.rst_instances.specs.Parameters.{names_from, known_values, linked, linked_in_order, links_to, link_to, as_declared, value_at, value_of, valued, values_of_decls, values_of, ◌then◌};
ghost use Rattle.rst_instances.specs.Settings.{LinkList, values_in, AreKnown, IsSetting};
ghost use Rattle.rst_instances.specs.Tables.{plain_linked, plain_valued, plain_bits, answer_of, outside_names, AreTables};

use crate::bits::Bits;
use crate::design::Tables;
use crate::noting::note;
use crate::ranges::{Outside, range_width, word_of};
use indexmap::IndexMap;
use rst_names::ElabCode;
use rst_outside::{Name, NoMemory};
use rst_tree::{Expr, Item, Link, Links, ParamDecl, ParamName};
use rst_width::{Entry, Scope, UnshapedNames};
use rst_word::Word;
use std::alloc::{AllocError, Global};

/// A link with a value, to this name.
#[derive(Clone, Copy)]
pub struct Linked<'a> {
    pub name: &'a Name,
    pub value: &'a Expr,
}

/// A parameter with its value, or with the code of the first fault of its range and its value.
#[derive(Clone, Copy)]
pub struct Valued<'a> {
    pub name: &'a Name,
    pub value: Result<Word, ElabCode>,
}

/// The values of the parameters of an instance, in the order of the text, and a scope of those that have one.
#[derive(Drop)]
pub struct Values<'a> {
    pub list: Vec<Valued<'a>>,
    pub scope: Scope,
}

fn push_link<'a>(
    name: &'a Name,
    value: &'a Option<Expr>,
    made: &mut Vec<Linked<'a>>,
) -> Result<(), AllocError>
    ensures { OnOk result (map plain_linked made.new.items ≡ map plain_linked made.old.items ++ linked_in_order (name.now ∷ []) (option_map plain value.now ∷ [])) }
{
    if let Some(value) = value {
        made.push(Linked { name, value })?;
    }
    Ok(())
}

fn push_ordered<'a>(
    names: &[&'a Name],
    values: &'a [Option<Expr>],
    made: &mut Vec<Linked<'a>>,
) -> Result<(), AllocError>
    ensures { OnOk result (map plain_linked made.new.items ≡ map plain_linked made.old.items ++ linked_in_order (map (λ n. n.now) names.now) (map (option_map plain) values.now)) }
{
    for (place, value) in values.iter().enumerate() {
        let Some(name) = names.get(place) else {
            return Ok(());
        };
        push_link(name, value, made)?;
    }
    Ok(())
}

fn push_named<'a>(links: &'a [Link], made: &mut Vec<Linked<'a>>) -> Result<(), AllocError>
    ensures { OnOk result (map plain_linked made.new.items ≡ map plain_linked made.old.items ++ filter_map (λ l. option_map (linked l.name) l.value) (map plain_link links.now)) }
{
    for link in links {
        if let Some(value) = &link.value {
            made.push(Linked {
                name: &link.name,
                value,
            })?;
        }
    }
    Ok(())
}

/// The links with a value, in the order of the text, to these names where they go by order.
pub fn links_to<'a>(
    alloc: Global,
    names: &[&'a Name],
    links: &'a Links,
) -> Result<Vec<Linked<'a>>, AllocError>
    ensures { IfOk result (λ made. map plain_linked made.items ≡ links_to (map (λ n. n.now) names.now) (plain_links links.now)) }
{
    let mut made = Vec::new(alloc);
    match links {
        Links::Ordered(values) => push_ordered(names, values, &mut made)?,
        Links::Named(links) => push_named(links, &mut made)?,
    }
    Ok(made)
}

/// The links by name, the first of those to one name.
pub fn link_table<'a>(
    alloc: Global,
    links: &[Linked<'a>],
) -> Result<IndexMap<Name, Linked<'a>>, NoMemory>
    ensures { IfOk result (λ table. (name : Text) → option_map plain_linked (get (pointwise nat_eq) table name) ≡ link_to (map plain_linked links.now) name) }
{
    let mut made: IndexMap<Name, Linked<'a>> = IndexMap::new(alloc);
    for link in links {
        note(alloc, &mut made, link.name, *link)?;
    }
    Ok(made)
}

// The number that the lowest bits spell.
fn lowest(word: Word, bits: Bits) -> u64
    ensures exact { result ≡ word.value % 2 ^ bits.count }
    ensures fits { result < 2 ^ bits.count }
{
    if bits.count < word.width {
        word.truncate(bits.count).value
    } else {
        word.value
    }
}

// A value as a parameter is declared.
fn as_declared(signed: bool, range: Option<Bits>, word: Word) -> Word
    ensures { plain_word result ≡ as_declared signed (plain_bits range) (plain_word word) }
{
    match range {
        None => Word::new(word.width, signed || word.signed, word.value),
        Some(bits) => Word::new(bits.count, signed, lowest(word, bits)),
    }
}

fn value_at(
    alloc: Global,
    expr: &Expr,
    names: Outside,
    signed: bool,
    range: Option<Bits>,
) -> Result<Result<Word, ElabCode>, NoMemory>
    ensures { IfOk result (λ value. answer_of plain_word value ≡ value_at (outside_names names.entry) signed (plain_bits range) (plain expr.now)) }
{
    let context = match range {
        Some(bits) => bits.count,
        None => 0,
    };
    match word_of(alloc, expr, names, context)? {
        Ok(word) => Ok(Ok(as_declared(signed, range, word))),
        Err(code) => Ok(Err(code)),
    }
}

// How the parameters of an instance are set from outside.
#[derive(Drop)]
struct Setting<'a, 's, 'u, 'o> {
    links: IndexMap<Name, Linked<'a>>,
    outside: Outside<'s, 'u>,
    unshaped: &'o UnshapedNames,
}

fn value_of(
    alloc: Global,
    setting: &Setting,
    own: &Scope,
    d: &ParamDecl,
    range: Option<Bits>,
    param: &ParamName,
) -> Result<Result<Word, ElabCode>, NoMemory>
    ensures { IfOk result (λ value. answer_of plain_word value ≡ value_of (names_with own.now setting.now.unshaped.now) (outside_names setting.now.outside) d.now.signed (plain_bits range) (plain param.now.value) (option_map plain_linked (get (pointwise nat_eq) setting.now.links param.now.name))) }
{
    match setting.links.get(&param.name) {
        Some(link) => value_at(alloc, link.value, setting.outside, d.signed, range),
        None => {
            let names = Outside {
                scope: own,
                unshaped: setting.unshaped,
            };
            value_at(alloc, &param.value, names, d.signed, range)
        }
    }
}

// The value of a parameter, the declaration of which has this width.
fn set_value(
    alloc: Global,
    setting: &Setting,
    own: &Scope,
    d: &ParamDecl,
    width: Result<Option<Bits>, ElabCode>,
    param: &ParamName,
) -> Result<Result<Word, ElabCode>, NoMemory>
    ensures { IfOk result (λ value. answer_of plain_word value ≡ (answer_of plain_bits width then λ range. value_of (names_with own.now setting.now.unshaped.now) (outside_names setting.now.outside) d.now.signed range (plain param.now.value) (option_map plain_linked (get (pointwise nat_eq) setting.now.links param.now.name)))) }
{
    match width {
        Err(code) => Ok(Err(code)),
        Ok(range) => value_of(alloc, setting, own, d, range, param),
    }
}

/// Notes the value of a parameter, where it has one and its name none yet.
pub fn note_value(
    alloc: Global,
    valued: Valued,
    entries: &mut IndexMap<Name, Entry>,
) -> Result<(), NoMemory>
    ensures { OnOk result ((name : Text) → meaning_of (get (pointwise nat_eq) entries.new name) ≡ either_of (meaning_of (get (pointwise nat_eq) entries.old name)) (names_from (known_values (plain_valued valued.entry ∷ [])) name)) }
{
    match valued.value {
        Ok(word) => {
            note(alloc, entries, valued.name, Entry::Param(word))?;
            Ok(())
        }
        Err(_) => Ok(()),
    }
}

// One value more.
fn add_value<'a>(alloc: Global, valued: Valued<'a>, made: &mut Values<'a>) -> Result<(), NoMemory>
    ensures added { OnOk result (values_in made.new ≡ values_in made.old ++ plain_valued valued.entry ∷ []) }
    ensures known { AreKnown made.old → OnOk result (AreKnown made.new) }
{
    made.list.push(valued)?;
    note_value(alloc, valued, &mut made.scope.entries)?;
    Ok(())
}

fn push_value<'a>(
    alloc: Global,
    setting: &Setting,
    d: &ParamDecl,
    width: Result<Option<Bits>, ElabCode>,
    param: &'a ParamName,
    made: &mut Values<'a>,
) -> Result<(), NoMemory>
    ensures added { (m : PlainModule) (outside : Names) (links : LinkList) → IsSetting m outside links setting.now → AreKnown made.old → OnOk result (values_in made.new ≡ values_in made.old ++ valued m outside links (plain_param_decl d.now) (answer_of plain_bits width) (values_in made.old) (plain_param_name param.now) ∷ []) }
    ensures known { AreKnown made.old → OnOk result (AreKnown made.new) }
{
    let value = set_value(alloc, setting, &made.scope, d, width, param)?;
    let valued = Valued {
        name: &param.name,
        value,
    };
    add_value(alloc, valued, made)?;
    Ok(())
}

// The parameters of a declaration.
fn push_values<'a>(
    alloc: Global,
    setting: &Setting,
    d: &'a ParamDecl,
    made: &mut Values<'a>,
) -> Result<(), NoMemory>
    ensures added { (m : PlainModule) (outside : Names) (links : LinkList) → IsSetting m outside links setting.now → AreKnown made.old → OnOk result (values_in made.new ≡ values_of_decls m outside links (values_in made.old) (plain_param_decl d.now ∷ [])) }
    ensures known { AreKnown made.old → OnOk result (AreKnown made.new) }
{
    let names = Outside {
        scope: &made.scope,
        unshaped: setting.unshaped,
    };
    let width = range_width(alloc, &d.range, names)?;
    for param in &d.names {
        push_value(alloc, setting, d, width, param, made)?;
    }
    Ok(())
}

fn push_decls<'a>(
    alloc: Global,
    setting: &Setting,
    decls: &'a [ParamDecl],
    made: &mut Values<'a>,
) -> Result<(), NoMemory>
    ensures added { (m : PlainModule) (outside : Names) (links : LinkList) → IsSetting m outside links setting.now → AreKnown made.old → OnOk result (values_in made.new ≡ values_of_decls m outside links (values_in made.old) (map plain_param_decl decls.now)) }
    ensures known { AreKnown made.old → OnOk result (AreKnown made.new) }
{
    for d in decls {
        push_values(alloc, setting, d, made)?;
    }
    Ok(())
}

fn push_item<'a>(
    alloc: Global,
    setting: &Setting,
    item: &'a Item,
    made: &mut Values<'a>,
) -> Result<(), NoMemory>
    ensures added { (m : PlainModule) (outside : Names) (links : LinkList) → IsSetting m outside links setting.now → AreKnown made.old → OnOk result (values_in made.new ≡ values_of_decls m outside links (values_in made.old) (item_params (plain_item item.now))) }
    ensures known { AreKnown made.old → OnOk result (AreKnown made.new) }
{
    match item {
        Item::Params(d) => push_values(alloc, setting, d, made),
        _ => Ok(()),
    }
}

fn push_items<'a>(
    alloc: Global,
    setting: &Setting,
    items: &'a [Item],
    made: &mut Values<'a>,
) -> Result<(), NoMemory>
    ensures added { (m : PlainModule) (outside : Names) (links : LinkList) → IsSetting m outside links setting.now → AreKnown made.old → OnOk result (values_in made.new ≡ values_of_decls m outside links (values_in made.old) (flat_map item_params (map plain_item items.now))) }
    ensures known { AreKnown made.old → OnOk result (AreKnown made.new) }
{
    for item in items {
        push_item(alloc, setting, item, made)?;
    }
    Ok(())
}

/// The values of the parameters of an instance of a module, in the order of the text, where these links set some of them to what
/// they are outside.
pub fn values_of<'a>(
    alloc: Global,
    tables: Tables<'a, '_>,
    links: &[Linked],
    outside: Outside,
) -> Result<Values<'a>, NoMemory>
    ensures list { (m : PlainModule) → AreTables m tables.entry → IfOk result (λ v. values_in v ≡ values_of m (outside_names outside.entry) (map plain_linked links.now)) }
    ensures known { IfOk result AreKnown }
{
    let setting = Setting {
        links: link_table(alloc, links)?,
        outside,
        unshaped: tables.unshaped,
    };
    let mut made = Values {
        list: Vec::new(alloc),
        scope: Scope {
            entries: IndexMap::new(alloc),
        },
    };
    push_decls(alloc, &setting, &tables.facts.module.params, &mut made)?;
    push_items(alloc, &setting, &tables.facts.module.items, &mut made)?;
    Ok(made)
}
