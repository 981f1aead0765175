// The pieces of a text, one for each module.

ghost use Rattle.std.specs.Prelude.{◌≡◌, ◌<◌, ◌≤◌, ◌∷◌, length, drop};
ghost use Rattle.rst_parse.specs.Pieces.{is_endmodule, pieces, piece_len};

use rst_grammar::{Symbol, Terminal};

fn is_endmodule<'a>(symbol: &Symbol<'a>) -> bool
    ensures { result ≡ is_endmodule symbol.now }
{
    matches!(symbol, Symbol::Terminal(Terminal::Endmodule))
}

// How many symbols the first piece has.
fn piece_len<'a>(symbols: &[Symbol<'a>]) -> usize
    ensures value { result ≡ piece_len symbols.now }
    ensures within { result ≤ length symbols.now }
{
    let mut len = 0;
    for symbol in symbols {
        len += 1;
        if is_endmodule(symbol) {
            return len;
        }
    }
    len
}

/// The first piece of the symbols, of which there is one at least.
pub(crate) fn first_piece<'s, 'a>(symbols: &'s [Symbol<'a>]) -> &'s [Symbol<'a>]
    requires { 0 < length symbols.now }
    ensures cut { pieces symbols.now ≡ result.now ∷ pieces (drop (length result.now) symbols.now) }
    ensures some { 0 < length result.now }
    ensures within { length result.now ≤ length symbols.now }
{
    let (piece, _) = symbols.split_at(piece_len(symbols));
    piece
}
