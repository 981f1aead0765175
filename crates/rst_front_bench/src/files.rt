// The texts of files, and their modules.
ghost use Rattle.std.specs.Prelude.{◌≤◌, length, IfSome};
ghost use Rattle.std.specs.List.{All};
ghost use Rattle.rst_tree.specs.Modules.{plain_source};
ghost use Rattle.rst_tree.specs.WellFormed.{WellFormed};
ghost use Rattle.rst_hierarchy.specs.Tables.{modules_in};
ghost use Rattle.rst_design.specs.Texts.{IsShort};

use rst_lex::lex;
use rst_outside::{Desk, FileDesk};
use rst_parse::parse;
use rst_tree::Source;
use std::alloc::Global;
use std::rt::Files;

/// The most bytes of a text.
pub(crate) const MOST: usize = 1_048_576;

/// The clock that a word names, if it isn't `-`.
pub(crate) fn clock_of(word: &str) -> Option<&[u8]> {
    if word == "-" {
        None
    } else {
        Some(word.as_bytes())
    }
}

/// The bytes of a file, if it can be read and isn't too long.
pub(crate) fn text_of<R: Files + AllocGlobal>(rt: &R, name: &str) -> Option<Vec<u8>>
    ensures { IfSome result IsShort }
{
    let mut desk = FileDesk::new(rt);
    let bytes = desk.load(rt.alloc(), name, MOST as u64).ok()?;
    if bytes.len() > MOST {
        return None;
    }
    Some(bytes)
}

/// The bytes of these files, if each can be read.
pub(crate) fn texts_of<R: Files + AllocGlobal>(rt: &R, names: &[String]) -> Option<Vec<Vec<u8>>>
    ensures { IfSome result (λ texts. All IsShort texts.items) }
{
    let mut texts = Vec::new(rt.alloc());
    for name in names {
        let text = text_of(rt, name.as_str())?;
        texts.push(text).ok()?;
    }
    Some(texts)
}

/// The modules of a text, if it has any reading.
pub(crate) fn source_of(alloc: Global, text: &[u8]) -> Option<Source>
    ensures { IfSome result (λ source. All WellFormed (plain_source source)) }
{
    if text.len() > MOST {
        return None;
    }
    let tokens = lex(alloc, text).ok()?;
    parse(alloc, text, &tokens).ok()
}

/// The modules of these texts, if each has a reading.
pub(crate) fn sources_of(alloc: Global, texts: &[Vec<u8>]) -> Option<Vec<Source>>
    ensures { IfSome result (λ sources. All WellFormed (modules_in sources.items)) }
{
    let mut sources = Vec::new(alloc);
    for text in texts {
        let source = source_of(alloc, text)?;
        sources.push(source).ok()?;
    }
    Some(sources)
}
