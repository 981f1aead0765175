// How terminals are spelled.

ghost use Rattle.std.specs.Prelude.{◌≡◌, map};
ghost use Rattle.rst_parse.specs.Spelling.{keywords, marks, functions, terminal_in};

use rst_grammar::Terminal;

const KEYWORDS: [(&str, Terminal); 22] = [
    ("module", Terminal::Module),
    ("endmodule", Terminal::Endmodule),
    ("input", Terminal::Input),
    ("output", Terminal::Output),
    ("wire", Terminal::Wire),
    ("reg", Terminal::Reg),
    ("signed", Terminal::Signed),
    ("parameter", Terminal::Parameter),
    ("localparam", Terminal::Localparam),
    ("assign", Terminal::Assign),
    ("always", Terminal::Always),
    ("posedge", Terminal::Posedge),
    ("negedge", Terminal::Negedge),
    ("or", Terminal::Or),
    ("begin", Terminal::Begin),
    ("end", Terminal::End),
    ("if", Terminal::If),
    ("else", Terminal::Else),
    ("case", Terminal::Case),
    ("casez", Terminal::Casez),
    ("default", Terminal::Default),
    ("endcase", Terminal::Endcase),
];

const MARKS: [(&str, Terminal); 40] = [
    ("(", Terminal::OpenParen),
    (")", Terminal::CloseParen),
    ("[", Terminal::OpenBracket),
    ("]", Terminal::CloseBracket),
    ("{", Terminal::OpenBrace),
    ("}", Terminal::CloseBrace),
    (",", Terminal::Comma),
    (";", Terminal::Semicolon),
    (":", Terminal::Colon),
    (".", Terminal::Dot),
    ("#", Terminal::Hash),
    ("@", Terminal::At),
    ("=", Terminal::Equal),
    ("?", Terminal::Question),
    ("+", Terminal::Plus),
    ("-", Terminal::Minus),
    ("!", Terminal::Bang),
    ("~", Terminal::Tilde),
    ("&", Terminal::Amp),
    ("|", Terminal::Bar),
    ("^", Terminal::Caret),
    ("*", Terminal::Star),
    ("/", Terminal::Slash),
    ("%", Terminal::Percent),
    ("<", Terminal::Less),
    (">", Terminal::Greater),
    ("<<", Terminal::ShiftLeft),
    (">>", Terminal::ShiftRight),
    ("<<<", Terminal::ArithShiftLeft),
    (">>>", Terminal::ArithShiftRight),
    ("<=", Terminal::LessEqual),
    (">=", Terminal::GreaterEqual),
    ("==", Terminal::EqualEqual),
    ("!=", Terminal::BangEqual),
    ("&&", Terminal::AmpAmp),
    ("||", Terminal::BarBar),
    ("~&", Terminal::TildeAmp),
    ("~|", Terminal::TildeBar),
    ("~^", Terminal::TildeCaret),
    ("^~", Terminal::TildeCaret),
];

const FUNCTIONS: [(&str, Terminal); 2] = [
    ("$signed", Terminal::SystemSigned),
    ("$unsigned", Terminal::SystemUnsigned),
];

// The terminal that the text spells in a table, if it stands there.
fn terminal_in(rows: &[(&str, Terminal)], text: &[u8]) -> Option<Terminal>
    ensures { result ≡ terminal_in (map (λ row. (row.0.now, row.1)) rows.now) text.now }
{
    for row in rows {
        if row.0.as_bytes() == text {
            return Some(row.1);
        }
    }
    None
}

pub(crate) fn keyword_of(text: &[u8]) -> Option<Terminal>
    ensures { result ≡ terminal_in keywords text.now }
{
    terminal_in(&KEYWORDS, text)
}

pub(crate) fn mark_of(text: &[u8]) -> Option<Terminal>
    ensures { result ≡ terminal_in marks text.now }
{
    terminal_in(&MARKS, text)
}

pub(crate) fn function_of(text: &[u8]) -> Option<Terminal>
    ensures { result ≡ terminal_in functions text.now }
{
    terminal_in(&FUNCTIONS, text)
}
