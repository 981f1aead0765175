// What texts elaborate to, in words that can be compared.
ghost use Rattle.std.specs.Prelude.{◌≡◌, ◌++◌, IfOk, IfSome};
ghost use Rattle.std.specs.List.{All};
ghost use Rattle.rst_tree.specs.Modules.{plain_source};
ghost use Rattle.rst_tree.specs.WellFormed.{WellFormed};
ghost use Rattle.rst_hierarchy.specs.Tables.{modules_in};

use rst_elab::{ElabError, ElabFault, Flat, elaborate};
use rst_lex::lex;
use rst_net::Role;
use rst_parse::parse;
use rst_tree::Source;
use std::alloc::{AllocError, Global};
use std::str;
use std::test::Fail;

// The modules of a text that has a tree.
fn source_of(alloc: Global, text: &[u8]) -> Option<Source>
    ensures { IfSome result (λ source. All WellFormed (plain_source source)) }
{
    if text.len() > 1_048_576 {
        return None;
    }
    let tokens = lex(alloc, text).ok()?;
    parse(alloc, text, &tokens).ok()
}

// The modules of texts that have trees.
fn sources_of(alloc: Global, texts: &[&str]) -> Option<Vec<Source>>
    ensures { IfSome result (λ sources. All WellFormed (modules_in sources.items)) }
{
    let mut sources = Vec::new(alloc);
    for text in texts {
        let source = source_of(alloc, text.as_bytes())?;
        sources.push(source).ok()?;
    }
    Some(sources)
}

fn role_of(role: Role) -> &'static str {
    match role {
        Role::Clock => "Clock",
        Role::Input => "Input",
        Role::Register => "Register",
        Role::Block => "Block",
        Role::Wire => "Wire",
        Role::Idle => "Idle",
    }
}

fn text_of(bytes: &[u8]) -> &str {
    str::from_utf8(bytes).unwrap_or("?")
}

// Each signal with its width and its role.
fn signals(alloc: Global, flat: &Flat) -> Result<String, AllocError> {
    let mut told = String::new(alloc);
    for signal in &flat.signals {
        let name = text_of(signal.name.as_slice());
        let width = signal.shape.width;
        told.push_str(format!(in alloc; "{name} {width} {} ", role_of(signal.role))?.as_str())?;
    }
    Ok(told)
}

// A refusal: its code, its name, its number.
fn refusal(alloc: Global, fault: &ElabFault) -> Result<String, AllocError> {
    let name = text_of(fault.name.as_slice());
    format!(in alloc; "{:?} {name} {}", fault.code, fault.number)
}

/// What texts elaborate to: the signals of the flat design with their widths and roles, or the refusal.
pub(crate) fn answer(
    alloc: Global,
    texts: &[&str],
    top: &str,
    clock: &str,
) -> Result<String, Fail> {
    let sources = sources_of(alloc, texts).ok_or("trees")?;
    let told = match elaborate(alloc, &sources, top.as_bytes(), Some(clock.as_bytes())) {
        Ok(flat) => signals(alloc, &flat)?,
        Err(ElabError::Fault(fault)) => refusal(alloc, &fault)?,
        Err(ElabError::NoMemory) => String::from_str(alloc, "no memory")?,
    };
    Ok(told)
}
