// From texts to modules.

ghost use Rattle.std.specs.Prelude.{◌≡◌, ◌≤◌, length, Ok, IfOk, IfErr};
ghost use Rattle.std.specs.List.{All};
ghost use Rattle.rst_lex.specs.Lexing.{Reads};
ghost use Rattle.rst_tree.specs.Modules.{plain_source};
ghost use Rattle.rst_tree.specs.WellFormed.{WellFormed};
ghost use Rattle.rst_hierarchy.specs.Tables.{modules_in};
ghost use Rattle.rst_reject.specs.Steps.{StopsBy};
ghost use Rattle.rst_design.specs.Texts.{texts_of, IsShort, SpellsModules, Spells, LexingGives, TextGives, TextsGive};

use rst_causes::{lexing_stop, parsing_stop};
use rst_lex::{Token, lex};
use rst_parse::parse;
use rst_reject::Stop;
use rst_tree::Source;
use std::alloc::Global;

// The tokens of the text of a file.
fn tokens_of(alloc: Global, file: u16, text: &[u8]) -> Result<Vec<Token>, Stop>
    requires { length text.now ≤ 1048576 }
    ensures tokens { IfOk result (λ v. Reads text.now (Ok v.items)) }
    ensures refused { IfErr result (λ stop. StopsBy (LexingGives file text.now) stop) }
{
    match lex(alloc, text) {
        Ok(tokens) => Ok(tokens),
        Err(fault) => Err(lexing_stop(alloc, file, text, fault)),
    }
}

// The modules of the text of a file.
fn source_of(alloc: Global, file: u16, text: &[u8]) -> Result<Source, Stop>
    requires { length text.now ≤ 1048576 }
    ensures spelled { IfOk result (λ source. SpellsModules text.now (plain_source source)) }
    ensures formed { IfOk result (λ source. All WellFormed (plain_source source)) }
    ensures refused { IfErr result (λ stop. StopsBy (TextGives file text.now) stop) }
{
    let tokens = tokens_of(alloc, file, text)?;
    match parse(alloc, text, &tokens) {
        Ok(source) => Ok(source),
        Err(fault) => Err(parsing_stop(alloc, file, text, &tokens, fault)),
    }
}

/// The modules of all files. Each file is lexed and right behind that parsed, before the next one is.
pub(crate) fn sources_of(alloc: Global, files: &[Vec<u8>]) -> Result<Vec<Source>, Stop>
    requires short { All IsShort files.now }
    requires few { length files.now ≤ 64 }
    ensures spelled { IfOk result (λ sources. Spells (texts_of files.now) (modules_in sources.items)) }
    ensures formed { IfOk result (λ sources. All WellFormed (modules_in sources.items)) }
    ensures refused { IfErr result (λ stop. StopsBy (TextsGive 0 (texts_of files.now)) stop) }
{
    let mut sources = Vec::new(alloc);
    let mut file: u16 = 0;
    for text in files {
        sources.push(source_of(alloc, file, text)?)?;
        file += 1;
    }
    Ok(sources)
}
