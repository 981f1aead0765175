// Lines of a file as texts, and a file as a text, parsed; and constants, worked out.
ghost use Rattle.std.specs.Prelude.{◌≤◌, length};

use crate::files::source_of;
use indexmap::IndexMap;
use rst_tree::{Item, ParamName, Source};
use rst_width::{Scope, WidthFault, constant};
use std::rt::Files;
use std::{fs, io};

// How often a text is parsed to be timed.
const TIMES: u32 = 16;

/// Reads each line of the file as a text, and prints how many modules it has, or that it has no reading.
pub(crate) fn parse_lines<R: Files + Print + AllocGlobal>(rt: &R, name: &str) -> io::Result<()> {
    let lines = fs::read(rt, name)?;
    for text in lines.split(|b| *b == b'\n') {
        match source_of(rt.alloc(), text) {
            Some(source) => println!(rt; "modules {}", source.modules.len())?,
            None => println!(rt; "none")?,
        }
    }
    Ok(())
}

/// Parses the file as a text many times, and prints the modules that it saw in all.
pub(crate) fn parse_file<R: Files + Print + AllocGlobal>(rt: &R, name: &str) -> io::Result<()> {
    let text = fs::read(rt, name)?;
    let mut seen = 0usize;
    for _ in 0..TIMES {
        if let Some(source) = source_of(rt.alloc(), &text) {
            seen = seen.saturating_add(source.modules.len());
        }
    }
    println!(rt; "modules {seen}")
}

fn name_of(fault: &WidthFault) -> &'static str {
    match fault {
        WidthFault::NoName(_) => "NoName",
        WidthFault::TooWide => "TooWide",
        WidthFault::ZeroWidth => "ZeroWidth",
        WidthFault::BadSelect => "BadSelect",
        WidthFault::MayLeaveRange => "MayLeaveRange",
        WidthFault::NotConstant => "NotConstant",
        WidthFault::ZeroDivisor => "ZeroDivisor",
        WidthFault::NoMemory => "NoMemory",
    }
}

// Prints width, sign and value of a parameter's value in a context of this width, or its fault.
fn print_constant<R: Print + AllocGlobal>(rt: &R, param: &ParamName, context: u8) -> io::Result<()>
    requires { context ≤ 64 }
{
    let alloc = rt.alloc();
    let scope = Scope {
        entries: IndexMap::new(alloc),
    };
    match constant(alloc, &param.value, &scope, context) {
        Ok(word) => println!(rt; "{} {} {}", word.width, word.signed, word.value),
        Err(fault) => println!(rt; "{}", name_of(&fault)),
    }
}

// The first parameter of the first module's first item.
fn first_param(source: &Source) -> Option<&ParamName> {
    match source.modules.first()?.items.first()? {
        Item::Params(decl) => decl.names.first(),
        _ => None,
    }
}

// The number that the digits spell, at most 64.
fn context_of(digits: &[u8]) -> u8
    ensures { result ≤ 64 }
{
    let mut number = 0u8;
    for digit in digits {
        if (b'0'..=b'9').contains(digit) {
            number = number.saturating_mul(10).saturating_add(*digit - b'0');
        }
    }
    number.min(64)
}

/// Reads each line of the file as the width of a context, a space and a text, and prints the word of the text's first
/// parameter in that context.
pub(crate) fn work_out_lines<R: Files + Print + AllocGlobal>(rt: &R, name: &str) -> io::Result<()> {
    let lines = fs::read(rt, name)?;
    for line in lines.split(|b| *b == b'\n') {
        let mut parts = line.splitn(2, |b| *b == b' ');
        let context = context_of(parts.next().unwrap_or(&[]));
        let source = source_of(rt.alloc(), parts.next().unwrap_or(&[]));
        let param = source.as_ref().and_then(first_param);
        match param {
            Some(param) => print_constant(rt, param, context)?,
            None => println!(rt; "none")?,
        }
    }
    Ok(())
}
