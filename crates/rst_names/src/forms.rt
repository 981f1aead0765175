// What a module declares.

ghost use Rattle.std.specs.Prelude.{◌≡◌, ◌++◌, map, IfOk, OnOk};
ghost use Rattle.std.specs.List.{flat_map};
ghost use Rattle.std.specs.Option.{option_map};
ghost use Rattle.rst_tree.specs.Modules.{plain_range, plain_port_decl, plain_net_decl, plain_param_decl, plain_copied, plain_header, plain_item, plain_module};
ghost use Rattle.rst_names.specs.Declarations.{listed, port_declarations, net_declarations, param_declarations, copy_declarations, header_declarations, item_declarations, declarations, is_signal, is_value, is_input, is_output, is_reg};
ghost use Rattle.rst_names.specs.Tables.{plain_declaration};

use rst_outside::Name;
use rst_tree::{Copied, Header, Item, Module, NetDecl, ParamDecl, PortDecl, Range};
use std::alloc::{AllocError, Global};

/// How a name is declared.
#[derive(Clone, Copy, Debug, PartialEq, Eq)]
pub enum Form {
    /// In the list of a plain header.
    Listed,
    /// With a direction: whether it is an input, and whether it is a reg.
    Directed(bool, bool),
    /// As a wire, or as a reg.
    Net(bool),
    Parameter,
    Instance,
}

impl Form {
    /// Whether it makes the name a signal.
    pub fn is_signal(self) -> bool
        ensures { result ≡ is_signal self }
    {
        matches!(self, Form::Directed(_, _) | Form::Net(_))
    }

    /// Whether it makes the name a signal or a parameter.
    pub fn is_value(self) -> bool
        ensures { result ≡ is_value self }
    {
        self.is_signal() || matches!(self, Form::Parameter)
    }

    /// Whether it is an input.
    pub fn is_input(self) -> bool
        ensures { result ≡ is_input self }
    {
        match self {
            Form::Directed(input, _) => input,
            _ => false,
        }
    }

    /// Whether it is an output.
    pub fn is_output(self) -> bool
        ensures { result ≡ is_output self }
    {
        match self {
            Form::Directed(input, _) => !input,
            _ => false,
        }
    }

    /// Whether it is a reg.
    pub fn is_reg(self) -> bool
        ensures { result ≡ is_reg self }
    {
        match self {
            Form::Directed(_, reg) | Form::Net(reg) => reg,
            _ => false,
        }
    }
}

/// A declaration of one name.
#[derive(Clone, Copy)]
pub struct Declaration<'a> {
    pub name: &'a Name,
    pub form: Form,
    pub signed: bool,
    pub range: Option<&'a Range>,
}

// The range, where there is one.
fn range_of(range: &Option<Range>) -> Option<&Range>
    ensures { option_map (λ r. plain_range r.now) result ≡ option_map plain_range range.now }
{
    match range {
        Some(range) => Some(range),
        None => None,
    }
}

fn push_ports<'a>(d: &'a PortDecl, made: &mut Vec<Declaration<'a>>) -> Result<(), AllocError>
    ensures { OnOk result (map plain_declaration made.new.items ≡ map plain_declaration made.old.items ++ port_declarations (plain_port_decl d.now)) }
{
    for name in &d.names {
        made.push(Declaration {
            name,
            form: Form::Directed(d.input, d.reg),
            signed: d.signed,
            range: range_of(&d.range),
        })?;
    }
    Ok(())
}

fn push_nets<'a>(d: &'a NetDecl, made: &mut Vec<Declaration<'a>>) -> Result<(), AllocError>
    ensures { OnOk result (map plain_declaration made.new.items ≡ map plain_declaration made.old.items ++ net_declarations (plain_net_decl d.now)) }
{
    for net in &d.names {
        made.push(Declaration {
            name: &net.name,
            form: Form::Net(d.reg),
            signed: d.signed,
            range: range_of(&d.range),
        })?;
    }
    Ok(())
}

fn push_params<'a>(d: &'a ParamDecl, made: &mut Vec<Declaration<'a>>) -> Result<(), AllocError>
    ensures { OnOk result (map plain_declaration made.new.items ≡ map plain_declaration made.old.items ++ param_declarations (plain_param_decl d.now)) }
{
    for param in &d.names {
        made.push(Declaration {
            name: &param.name,
            form: Form::Parameter,
            signed: d.signed,
            range: range_of(&d.range),
        })?;
    }
    Ok(())
}

fn push_copies<'a>(copies: &'a [Copied], made: &mut Vec<Declaration<'a>>) -> Result<(), AllocError>
    ensures { OnOk result (map plain_declaration made.new.items ≡ map plain_declaration made.old.items ++ copy_declarations (map plain_copied copies.now)) }
{
    for copy in copies {
        made.push(Declaration {
            name: &copy.name,
            form: Form::Instance,
            signed: false,
            range: None,
        })?;
    }
    Ok(())
}

fn push_listed<'a>(names: &'a [Name], made: &mut Vec<Declaration<'a>>) -> Result<(), AllocError>
    ensures { OnOk result (map plain_declaration made.new.items ≡ map plain_declaration made.old.items ++ map listed names.now) }
{
    for name in names {
        made.push(Declaration {
            name,
            form: Form::Listed,
            signed: false,
            range: None,
        })?;
    }
    Ok(())
}

fn push_full<'a>(ports: &'a [PortDecl], made: &mut Vec<Declaration<'a>>) -> Result<(), AllocError>
    ensures { OnOk result (map plain_declaration made.new.items ≡ map plain_declaration made.old.items ++ flat_map port_declarations (map plain_port_decl ports.now)) }
{
    for d in ports {
        push_ports(d, made)?;
    }
    Ok(())
}

fn push_header<'a>(header: &'a Header, made: &mut Vec<Declaration<'a>>) -> Result<(), AllocError>
    ensures { OnOk result (map plain_declaration made.new.items ≡ map plain_declaration made.old.items ++ header_declarations (plain_header header.now)) }
{
    match header {
        Header::Plain(names) => push_listed(names, made),
        Header::Full(ports) => push_full(ports, made),
    }
}

fn push_item<'a>(item: &'a Item, made: &mut Vec<Declaration<'a>>) -> Result<(), AllocError>
    ensures { OnOk result (map plain_declaration made.new.items ≡ map plain_declaration made.old.items ++ item_declarations (plain_item item.now)) }
{
    match item {
        Item::Port(d) => push_ports(d, made),
        Item::Net(d) => push_nets(d, made),
        Item::Params(d) => push_params(d, made),
        Item::Assign(_) | Item::Always(_) => Ok(()),
        Item::Instance(instance) => push_copies(&instance.copies, made),
    }
}

fn push_groups<'a>(
    params: &'a [ParamDecl],
    made: &mut Vec<Declaration<'a>>,
) -> Result<(), AllocError>
    ensures { OnOk result (map plain_declaration made.new.items ≡ map plain_declaration made.old.items ++ flat_map param_declarations (map plain_param_decl params.now)) }
{
    for d in params {
        push_params(d, made)?;
    }
    Ok(())
}

fn push_items<'a>(items: &'a [Item], made: &mut Vec<Declaration<'a>>) -> Result<(), AllocError>
    ensures { OnOk result (map plain_declaration made.new.items ≡ map plain_declaration made.old.items ++ flat_map item_declarations (map plain_item items.now)) }
{
    for item in items {
        push_item(item, made)?;
    }
    Ok(())
}

/// The declarations of a module, in the order of its text: those of the parameters of its header, of its ports, of its items.
pub fn declarations<'a>(
    alloc: Global,
    module: &'a Module,
) -> Result<Vec<Declaration<'a>>, AllocError>
    ensures { IfOk result (λ ds. map plain_declaration ds.items ≡ declarations (plain_module «module».now)) }
{
    let mut made = Vec::new(alloc);
    push_groups(&module.params, &mut made)?;
    push_header(&module.header, &mut made)?;
    push_items(&module.items, &mut made)?;
    Ok(made)
}
