// The lines of a text that say something.
ghost use Rattle.std.specs.Prelude.{◌≡◌, ◌+◌, ◌<◌, ◌≤◌, [], ◌∷◌, length, IfOk, IfErr, IfSome, IfNone, not};
ghost use Rattle.std.specs.List.{prefix_len};
ghost use Rattle.rst_script.specs.Lines.{is_newline, lines, words, without_return, is_comment, line_words, said_lines};

use crate::words::split_word;

// How many bytes stand before the first newline.
fn line_len(text: &[u8]) -> usize
    ensures value { result ≡ prefix_len (λ b. not (is_newline b)) text.now }
    ensures within { result ≤ length text.now }
{
    text.iter().take_while(|b| **b != b'\n').count()
}

// The first line, without its newline, and what stands behind it.
fn split_line(text: &[u8]) -> Option<(&[u8], &[u8])>
    ensures found { IfSome result (λ it. lines text.now ≡ it.0.now ∷ lines it.1.now) }
    ensures shorter { IfSome result (λ it. length it.1.now < length text.now) }
    ensures none { IfNone result (lines text.now ≡ []) }
{
    if text.is_empty() {
        return None;
    }
    let len = line_len(text);
    if len < text.len() {
        Some((&text[..len], &text[len + 1..]))
    } else {
        Some((text, &[]))
    }
}

fn is_comment(line: &[u8]) -> bool
    ensures { result ≡ is_comment line.now }
{
    match line {
        [] => false,
        [b, ..] => *b == b'#',
    }
}

// The line without one carriage return at its end.
fn without_return(line: &[u8]) -> &[u8]
    ensures { result.now ≡ without_return line.now }
{
    let Some((last, rest)) = line.split_last() else {
        return line;
    };
    if *last == b'\r' { rest } else { line }
}

// What a line says: nothing where it is a comment.
fn said_part(line: &[u8]) -> &[u8]
    ensures { words result.now ≡ line_words line.now }
{
    if is_comment(line) {
        &[]
    } else {
        without_return(line)
    }
}

// A line that says something: its number, its words, and what stands behind the line.
#[derive(Clone, Copy)]
pub(crate) struct Line<'a> {
    pub(crate) number: u32,
    pub(crate) words: &'a [u8],
    pub(crate) rest: &'a [u8],
}

// The next line that says something, or the number of lines; `before` is the number of those that were read.
pub(crate) fn next_line(text: &[u8], before: u32) -> Result<Line<'_>, u32>
    requires { before + length text.now ≤ 1048576 }
    ensures found { IfOk result (λ it. said_lines before (lines text.now) ≡ record { number = it.number; words = words it.words.now } ∷ said_lines it.number (lines it.rest.now)) }
    ensures counted { IfOk result (λ it. it.number + length (lines it.rest.now) ≡ before + length (lines text.now)) }
    ensures few { IfOk result (λ it. it.number + length it.rest.now ≤ 1048576) }
    ensures shorter { IfOk result (λ it. length it.rest.now < length text.now) }
    ensures end { IfErr result (λ _. said_lines before (lines text.now) ≡ []) }
    ensures count { IfErr result (λ count. count ≡ before + length (lines text.now)) }
    ensures small { IfErr result (λ count. count ≤ 1048576) }
{
    let mut number = before;
    let mut rest = text;
    while let Some((line, behind)) = split_line(rest) {
        number += 1;
        rest = behind;
        let words = said_part(line);
        if split_word(words).is_some() {
            return Ok(Line {
                number,
                words,
                rest,
            });
        }
    }
    Err(number)
}
