// Classes of bytes, and how far they reach.
ghost use Rattle.std.specs.Prelude.{◌≡◌, ◌≤◌, length};
ghost use Rattle.std.specs.List.{prefix_len};
ghost use Rattle.rst_lex.specs.Bytes.{is_blank, is_letter, is_digit, is_name_start, is_name_byte, is_binary_digit, is_space, is_decimal_byte, is_open_digit};
ghost use Rattle.rst_lex.specs.Numbers.{is_octal_digit, is_hex_digit, is_digit_behind};
ghost use Rattle.rst_lex.specs.MarkFronts.{is_mark, is_mark_of_two, is_mark_of_three, mark_len};

pub(crate) fn is_blank(b: u8) -> bool
    ensures { result ≡ is_blank b }
{
    b == b' ' || b == b'\t' || b == b'\n'
}

fn is_letter(b: u8) -> bool
    ensures { result ≡ is_letter b }
{
    (b'A' <= b && b <= b'Z') || (b'a' <= b && b <= b'z')
}

pub(crate) fn is_digit(b: u8) -> bool
    ensures { result ≡ is_digit b }
{
    b'0' <= b && b <= b'9'
}

pub(crate) fn is_name_start(b: u8) -> bool
    ensures { result ≡ is_name_start b }
{
    is_letter(b) || b == b'_'
}

pub(crate) fn is_name_byte(b: u8) -> bool
    ensures { result ≡ is_name_byte b }
{
    is_letter(b) || is_digit(b) || b == b'_' || b == b'$'
}

pub(crate) fn is_binary_digit(b: u8) -> bool
    ensures { result ≡ is_binary_digit b }
{
    b == b'0'
        || b == b'1'
        || b == b'_'
        || b == b'x'
        || b == b'X'
        || b == b'z'
        || b == b'Z'
        || b == b'?'
}

fn is_mark(a: u8) -> bool
    ensures { result ≡ is_mark a }
{
    a == b'('
        || a == b')'
        || a == b'['
        || a == b']'
        || a == b'{'
        || a == b'}'
        || a == b','
        || a == b';'
        || a == b':'
        || a == b'.'
        || a == b'#'
        || a == b'@'
        || a == b'='
        || a == b'?'
        || a == b'+'
        || a == b'-'
        || a == b'!'
        || a == b'~'
        || a == b'&'
        || a == b'|'
        || a == b'^'
        || a == b'*'
        || a == b'/'
        || a == b'%'
        || a == b'<'
        || a == b'>'
}

fn is_mark_of_two(a: u8, b: u8) -> bool
    ensures { result ≡ is_mark_of_two a b }
{
    (a == b'<' && b == b'<')
        || (a == b'>' && b == b'>')
        || (a == b'<' && b == b'=')
        || (a == b'>' && b == b'=')
        || (a == b'=' && b == b'=')
        || (a == b'!' && b == b'=')
        || (a == b'&' && b == b'&')
        || (a == b'|' && b == b'|')
        || (a == b'~' && b == b'&')
        || (a == b'~' && b == b'|')
        || (a == b'~' && b == b'^')
        || (a == b'^' && b == b'~')
        || (a == b'*' && b == b'*')
}

fn is_mark_of_three(a: u8, b: u8, c: u8) -> bool
    ensures { result ≡ is_mark_of_three a b c }
{
    (a == b'<' && b == b'<' && c == b'<')
        || (a == b'>' && b == b'>' && c == b'>')
        || (a == b'=' && b == b'=' && c == b'=')
        || (a == b'!' && b == b'=' && c == b'=')
}

// How many bytes the longest mark in front has, or 0.
pub(crate) fn mark_len(text: &[u8]) -> usize
    ensures value { result ≡ mark_len text.now }
    ensures within { result ≤ length text.now }
{
    match text {
        [] => 0,
        [a, b, c, ..] if is_mark_of_three(*a, *b, *c) => 3,
        [a, b, ..] if is_mark_of_two(*a, *b) => 2,
        [a, ..] if is_mark(*a) => 1,
        _ => 0,
    }
}

pub(crate) fn name_len(text: &[u8]) -> usize
    ensures value { result ≡ prefix_len is_name_byte text.now }
    ensures within { result ≤ length text.now }
{
    text.iter().take_while(|b| is_name_byte(**b)).count()
}

pub(crate) fn is_space(b: u8) -> bool
    ensures { result ≡ is_space b }
{
    is_blank(b) || b == b'\r' || b == 12
}

pub(crate) fn is_decimal_byte(b: u8) -> bool
    ensures { result ≡ is_decimal_byte b }
{
    is_digit(b) || b == b'_'
}

fn is_open_digit(b: u8) -> bool
    ensures { result ≡ is_open_digit b }
{
    b == b'x' || b == b'X' || b == b'z' || b == b'Z' || b == b'?'
}

fn is_octal_digit(b: u8) -> bool
    ensures { result ≡ is_octal_digit b }
{
    (b'0' <= b && b <= b'7') || b == b'_' || is_open_digit(b)
}

fn is_hex_digit(b: u8) -> bool
    ensures { result ≡ is_hex_digit b }
{
    is_digit(b)
        || (b'A' <= b && b <= b'F')
        || (b'a' <= b && b <= b'f')
        || b == b'_'
        || is_open_digit(b)
}

// Whether a byte may be a digit behind a base letter.
pub(crate) fn is_digit_behind(letter: u8, b: u8) -> bool
    ensures { result ≡ is_digit_behind letter b }
{
    match letter {
        b'b' | b'B' => is_binary_digit(b),
        b'o' | b'O' => is_octal_digit(b),
        b'd' | b'D' => is_decimal_byte(b),
        b'h' | b'H' => is_hex_digit(b),
        _ => false,
    }
}
