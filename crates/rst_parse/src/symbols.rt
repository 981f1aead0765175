// From tokens to symbols.

ghost use Rattle.std.specs.Prelude.{◌≡◌, ◌≢◌, ◌≤◌, length, IfOk, IfErr, Some, None};
ghost use Rattle.std.specs.List.{All};
ghost use Rattle.std.specs.Option.{is_none, option_map};
ghost use Rattle.rst_lex.specs.Tokens.{token_text, InOrder};
ghost use Rattle.rst_lex.specs.Lexing.{IsTokenOf};
ghost use Rattle.rst_parse.specs.declared.parser.ParseFault.TheVariants.{NoMemory};
ghost use Rattle.rst_parse.specs.Symbols.{is_refused, first_refused, terminal_symbol, symbol_of, AreSymbols};
ghost use Rattle.rst_parse.specs.Parsing.{IsRefusal};

use crate::parser::ParseFault;
use crate::spelling::{function_of, keyword_of, mark_of};
use rst_grammar::{NameText, Symbol, Terminal};
use rst_lex::{Token, TokenKind};
use std::alloc::Global;

fn terminal_symbol<'a>(terminal: Option<Terminal>) -> Option<Symbol<'a>>
    ensures { result ≡ option_map terminal_symbol terminal }
{
    Some(Symbol::Terminal(terminal?))
}

fn symbol_of<'a>(kind: TokenKind, text: &'a [u8]) -> Option<Symbol<'a>>
    requires { IsTokenOf kind text.now }
    ensures symbol { result ≡ symbol_of kind text.now }
    ensures refused { is_none result ≡ is_refused kind text.now }
{
    match kind {
        TokenKind::Name => Some(Symbol::Name(NameText::new(text))),
        TokenKind::Number(literal) => Some(Symbol::Number(literal)),
        TokenKind::Keyword => terminal_symbol(keyword_of(text)),
        TokenKind::Mark => terminal_symbol(mark_of(text)),
        TokenKind::System => terminal_symbol(function_of(text)),
    }
}

fn text_of(text: &[u8], token: Token) -> &[u8]
    requires start { token.start ≤ token.end }
    requires end { token.end ≤ length text.now }
    ensures { result.now ≡ token_text text.now token }
{
    &text[token.start as usize..token.end as usize]
}

/// What the tokens of a text are to the grammar, or the first that is refused.
pub(crate) fn symbols<'a>(
    alloc: Global,
    text: &'a [u8],
    tokens: &[Token],
) -> Result<Vec<Symbol<'a>>, ParseFault>
    requires short { length tokens.now ≤ 1048576 }
    requires order { InOrder 0 (length text.now) tokens.now }
    requires kinds { All (λ token. IsTokenOf token.kind (token_text text.now token)) tokens.now }
    ensures symbols { IfOk result (λ v. AreSymbols text.now tokens.now v.items) }
    ensures supported { IfOk result (λ v. first_refused text.now tokens.now ≡ None) }
    ensures refused { IfErr result (λ fault. fault ≢ NoMemory → IsRefusal text.now tokens.now fault) }
{
    let mut symbols = Vec::new(alloc);
    for token in tokens {
        let Some(symbol) = symbol_of(token.kind, text_of(text, *token)) else {
            return Err(ParseFault::Unsupported(symbols.len() as u32));
        };
        symbols.push(symbol)?;
    }
    Ok(symbols)
}
