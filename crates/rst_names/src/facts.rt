// What is known of a module's names.

ghost use Rattle.std.specs.Prelude.{◌≡◌, ◌++◌, map, filter, cond, nat_eq, position, None, IfOk, OnOk};
ghost use Rattle.std.specs.List.{flat_map};
ghost use Rattle.std.specs.Cmp.Lexicographic.{pointwise};
ghost use Rattle.indexmap.specs.IndexMap.{get};
ghost use Rattle.rst_tree.specs.Trees.{Text};
ghost use Rattle.rst_tree.specs.Modules.{PlainModule, plain_port_decl, plain_param_decl, plain_header, plain_item, plain_module};
ghost use Rattle.rst_names.specs.Names.{same_text};
ghost use Rattle.rst_names.specs.Declarations.{declarations, ports_of_header, settable_of, item_params, settable, signal_names};
ghost use Rattle.rst_names.specs.Tables.{plain_declaration, plain_declared, plain_summary, total_at, total_in, total_or, with_declaration, signal_by, is_new, or_here, IsFacts};

use crate::forms::{Declaration, declarations};
use indexmap::IndexMap;
use rst_outside::{Name, NoMemory};
use rst_tree::{Header, Item, Module, ParamDecl, PortDecl, Range};
use std::alloc::{AllocError, Global};

/// All declarations of one name together.
#[derive(Clone, Copy)]
pub struct Summary<'a> {
    /// Whether it has a direction, as an input, as an output.
    pub input: bool,
    pub output: bool,
    /// Whether it is a signal, and a reg.
    pub signal: bool,
    pub reg: bool,
    pub parameter: bool,
    /// Whether it is declared signed as a signal.
    pub signed: bool,
    /// The range of the first declaration as a signal.
    pub range: Option<&'a Range>,
}

/// A signal of a module.
#[derive(Clone, Copy)]
pub struct Declared<'a> {
    pub name: &'a Name,
    pub input: bool,
    pub output: bool,
    pub reg: bool,
    pub signed: bool,
    pub range: Option<&'a Range>,
}

/// A module with tables of its names.
#[derive(Drop)]
pub struct Facts<'a> {
    pub module: &'a Module,
    pub declarations: Vec<Declaration<'a>>,
    /// The ports, in the order of the header, and the place of each.
    pub ports: Vec<&'a Name>,
    pub port_places: IndexMap<Name, usize>,
    /// The parameters that an instance can set.
    pub settable: Vec<&'a Name>,
    /// The signals, ports first, and the place of each.
    pub signals: Vec<Declared<'a>>,
    pub signal_places: IndexMap<Name, usize>,
    pub summaries: IndexMap<Name, Summary<'a>>,
}

impl<'a> Facts<'a> {
    /// What is declared of this name.
    pub fn summary(&self, name: &Name) -> Summary<'a>
        ensures found { plain_summary result ≡ total_at self.now name.now }
        ensures declared { (m : PlainModule) → IsFacts m self.now → plain_summary result ≡ total_in (declarations m) name.now }
    {
        summary_in(&self.summaries, name)
    }
}

// What a table has of a name.
fn summary_in<'a>(summaries: &IndexMap<Name, Summary<'a>>, name: &Name) -> Summary<'a>
    ensures { plain_summary result ≡ total_or (get (pointwise nat_eq) summaries.now name.now) }
{
    match summaries.get(name) {
        Some(summary) => *summary,
        None => nothing(),
    }
}

fn nothing<'a>() -> Summary<'a>
    ensures { plain_summary result ≡ total_or None }
{
    Summary {
        input: false,
        output: false,
        signal: false,
        reg: false,
        parameter: false,
        signed: false,
        range: None,
    }
}

// One more declaration of a name.
fn with<'a>(before: Summary<'a>, d: Declaration<'a>) -> Summary<'a>
    ensures { plain_summary result ≡ with_declaration (plain_summary before.entry) (plain_declaration d.entry) }
{
    if d.form.is_signal() {
        Summary {
            input: before.input || d.form.is_input(),
            output: before.output || d.form.is_output(),
            signal: true,
            reg: before.reg || d.form.is_reg(),
            parameter: before.parameter,
            signed: before.signed || d.signed,
            range: if before.signal { before.range } else { d.range },
        }
    } else {
        Summary {
            parameter: before.parameter || matches!(d.form, crate::forms::Form::Parameter),
            ..before
        }
    }
}

// One more declaration in the table.
#[tactic(auto, using(crate::proofs::FactLemmas::added_total))]
fn add<'a>(
    alloc: Global,
    d: Declaration<'a>,
    made: &mut IndexMap<Name, Summary<'a>>,
) -> Result<(), NoMemory>
    ensures { OnOk result ((q : Text) → total_or (get (pointwise nat_eq) made.new q) ≡ cond (same_text (plain_declaration d.entry).name q) (with_declaration (total_or (get (pointwise nat_eq) made.old q)) (plain_declaration d.entry)) (total_or (get (pointwise nat_eq) made.old q))) }
{
    let more = with(summary_in(made, d.name), d);
    made.insert(Name::new(alloc, d.name.as_slice())?, more)?;
    Ok(())
}

fn summaries<'a>(
    alloc: Global,
    declarations: &[Declaration<'a>],
) -> Result<IndexMap<Name, Summary<'a>>, NoMemory>
    ensures { IfOk result (λ made. (name : Text) → total_or (get (pointwise nat_eq) made name) ≡ total_in (map plain_declaration declarations.now) name) }
{
    let mut made: IndexMap<Name, Summary<'a>> = IndexMap::new(alloc);
    for d in declarations {
        add(alloc, *d, &mut made)?;
    }
    Ok(made)
}

fn push_names<'a>(names: &'a [Name], made: &mut Vec<&'a Name>) -> Result<(), AllocError>
    ensures { OnOk result (map (λ n. n.now) made.new.items ≡ map (λ n. n.now) made.old.items ++ names.now) }
{
    for name in names {
        made.push(name)?;
    }
    Ok(())
}

fn push_full<'a>(ports: &'a [PortDecl], made: &mut Vec<&'a Name>) -> Result<(), AllocError>
    ensures { OnOk result (map (λ n. n.now) made.new.items ≡ map (λ n. n.now) made.old.items ++ flat_map (λ d. d.names) (map plain_port_decl ports.now)) }
{
    for d in ports {
        push_names(&d.names, made)?;
    }
    Ok(())
}

// The ports of a module, in the order of its header.
fn ports_of<'a>(alloc: Global, header: &'a Header) -> Result<Vec<&'a Name>, AllocError>
    ensures { IfOk result (λ made. map (λ n. n.now) made.items ≡ ports_of_header (plain_header header.now)) }
{
    let mut made = Vec::new(alloc);
    match header {
        Header::Plain(names) => push_names(names, &mut made)?,
        Header::Full(ports) => push_full(ports, &mut made)?,
    }
    Ok(made)
}

fn push_settable<'a>(d: &'a ParamDecl, made: &mut Vec<&'a Name>) -> Result<(), AllocError>
    ensures { OnOk result (map (λ n. n.now) made.new.items ≡ map (λ n. n.now) made.old.items ++ settable_of (plain_param_decl d.now)) }
{
    if d.local {
        return Ok(());
    }
    for param in &d.names {
        made.push(&param.name)?;
    }
    Ok(())
}

fn push_groups<'a>(params: &'a [ParamDecl], made: &mut Vec<&'a Name>) -> Result<(), AllocError>
    ensures { OnOk result (map (λ n. n.now) made.new.items ≡ map (λ n. n.now) made.old.items ++ flat_map settable_of (map plain_param_decl params.now)) }
{
    for d in params {
        push_settable(d, made)?;
    }
    Ok(())
}

fn push_items<'a>(items: &'a [Item], made: &mut Vec<&'a Name>) -> Result<(), AllocError>
    ensures { OnOk result (map (λ n. n.now) made.new.items ≡ map (λ n. n.now) made.old.items ++ flat_map settable_of (flat_map item_params (map plain_item items.now))) }
{
    for item in items {
        if let Item::Params(d) = item {
            push_settable(d, made)?;
        }
    }
    Ok(())
}

// The parameters that an instance can set, in order: those of the header, then those of the items, without local ones.
fn settable<'a>(alloc: Global, module: &'a Module) -> Result<Vec<&'a Name>, AllocError>
    ensures { IfOk result (λ made. map (λ n. n.now) made.items ≡ settable (plain_module «module».now)) }
{
    let mut made = Vec::new(alloc);
    push_groups(&module.params, &mut made)?;
    push_items(&module.items, &mut made)?;
    Ok(made)
}

// The place of a name, if it has none yet.
#[tactic(auto, using(crate::proofs::TableLemmas::tables))]
fn place(
    alloc: Global,
    name: &Name,
    place: usize,
    made: &mut IndexMap<Name, usize>,
) -> Result<(), NoMemory>
    ensures { OnOk result ((q : Text) → get (pointwise nat_eq) made.new q ≡ or_here (get (pointwise nat_eq) made.old q) (same_text name.now q) place) }
{
    if made.contains_key(name) {
        return Ok(());
    }
    made.insert(Name::new(alloc, name.as_slice())?, place)?;
    Ok(())
}

// The place of each name, the first of those with one name.
fn places(alloc: Global, names: &[&Name]) -> Result<IndexMap<Name, usize>, NoMemory>
    ensures { IfOk result (λ made. (name : Text) → get (pointwise nat_eq) made name ≡ position (λ n. same_text n name) (map (λ n. n.now) names.now)) }
{
    let mut made: IndexMap<Name, usize> = IndexMap::new(alloc);
    for (at, name) in names.iter().enumerate() {
        place(alloc, name, at, &mut made)?;
    }
    Ok(made)
}

fn signal_of<'a>(name: &'a Name, summaries: &IndexMap<Name, Summary<'a>>) -> Declared<'a>
    ensures { plain_declared result ≡ signal_by summaries.now name.now }
{
    let summary = summary_in(summaries, name);
    Declared {
        name,
        input: summary.input,
        output: summary.output,
        reg: summary.reg,
        signed: summary.signed,
        range: summary.range,
    }
}

fn push_ports<'a>(
    ports: &[&'a Name],
    summaries: &IndexMap<Name, Summary<'a>>,
    made: &mut Vec<Declared<'a>>,
) -> Result<(), AllocError>
    ensures { OnOk result (map plain_declared made.new.items ≡ map plain_declared made.old.items ++ map (signal_by summaries.now) (map (λ n. n.now) ports.now)) }
{
    for name in ports {
        made.push(signal_of(name, summaries))?;
    }
    Ok(())
}

fn push_inner<'a>(
    declarations: &[Declaration<'a>],
    port_places: &IndexMap<Name, usize>,
    summaries: &IndexMap<Name, Summary<'a>>,
    made: &mut Vec<Declared<'a>>,
) -> Result<(), AllocError>
    ensures { OnOk result (map plain_declared made.new.items ≡ map plain_declared made.old.items ++ map (signal_by summaries.now) (filter (is_new port_places.now) (signal_names (map plain_declaration declarations.now)))) }
{
    for d in declarations {
        if d.form.is_signal() && !port_places.contains_key(d.name) {
            made.push(signal_of(d.name, summaries))?;
        }
    }
    Ok(())
}

// The signals: the ports, then the others in the order of the text.
fn signals<'a>(
    alloc: Global,
    ports: &[&'a Name],
    port_places: &IndexMap<Name, usize>,
    declarations: &[Declaration<'a>],
    summaries: &IndexMap<Name, Summary<'a>>,
) -> Result<Vec<Declared<'a>>, AllocError>
    ensures { IfOk result (λ made. map plain_declared made.items ≡ map (signal_by summaries.now) (map (λ n. n.now) ports.now) ++ map (signal_by summaries.now) (filter (is_new port_places.now) (signal_names (map plain_declaration declarations.now)))) }
{
    let mut made = Vec::new(alloc);
    push_ports(ports, summaries, &mut made)?;
    push_inner(declarations, port_places, summaries, &mut made)?;
    Ok(made)
}

fn signal_places(alloc: Global, signals: &[Declared]) -> Result<IndexMap<Name, usize>, NoMemory>
    ensures { IfOk result (λ made. (name : Text) → get (pointwise nat_eq) made name ≡ position (λ d. same_text d.name name) (map plain_declared signals.now)) }
{
    let mut made: IndexMap<Name, usize> = IndexMap::new(alloc);
    for (at, d) in signals.iter().enumerate() {
        place(alloc, d.name, at, &mut made)?;
    }
    Ok(made)
}

/// The tables of a module.
pub fn facts_of<'a>(alloc: Global, module: &'a Module) -> Result<Facts<'a>, NoMemory>
    ensures { IfOk result (IsFacts (plain_module «module».now)) }
{
    let declarations = declarations(alloc, module)?;
    let summaries = summaries(alloc, &declarations)?;
    let ports = ports_of(alloc, &module.header)?;
    let port_places = places(alloc, &ports)?;
    let settable = settable(alloc, module)?;
    let signals = signals(alloc, &ports, &port_places, &declarations, &summaries)?;
    let signal_places = signal_places(alloc, &signals)?;
    Ok(Facts {
        module,
        declarations,
        ports,
        port_places,
        settable,
        signals,
        signal_places,
        summaries,
    })
}
