// Reads the words of a command line.
ghost use Rattle.std.specs.Prelude.{◌≡◌, map, string_bytes, bytes_eq};
ghost use Rattle.std.specs.List.{list_any};
ghost use Rattle.std.specs.Option.{option_map};
ghost use Rattle.rst_command.specs.Commands.{is_count, is_apart, demo_number, check_of, known_of, demo_of, command_of, plain_input, plain_command};

use crate::words::{Command, Files, Input, Word};

/// The most FILE words of a command.
const MOST_FILES: usize = 64;

// Whether so many FILE words may stand.
fn is_count(count: usize) -> bool
    ensures { result ≡ is_count count }
{
    1 <= count && count <= MOST_FILES
}

// Whether one of the words is this.
fn has_word(words: &[String], text: &str) -> bool
    ensures { result ≡ list_any (λ word. bytes_eq (string_bytes word) text.now) words.now }
{
    words.iter().any(|word| word.as_str() == text)
}

// N of `demo N`.
fn demo_number(text: &[u8]) -> Option<u8>
    ensures { result ≡ demo_number text.now }
{
    match text {
        [d] if b'1' <= *d && *d <= b'9' => Some(*d - b'0'),
        [t, d] if b'1' <= *t && *t <= b'5' && b'0' <= *d && *d <= b'9' => {
            Some((*t - b'0') * 10 + (*d - b'0'))
        }
        [b'6', b'0'] => Some(60),
        _ => None,
    }
}

// Whether CERT is another word than SCRIPT and each FILE.
#[tactic(auto, using(crate::proofs::HasWord::any_word))]
fn is_apart(script: &str, cert: &str, files: &[String]) -> bool
    ensures { result ≡ is_apart script.now cert.now (map string_bytes files.now) }
{
    cert != script && !has_word(files, cert)
}

// The words behind `check`.
fn check_in(words: &[String]) -> Option<Command<'_>>
    ensures { option_map plain_command result ≡ check_of (map string_bytes words.now) }
{
    let [top, script, cert, files @ ..] = words else {
        return None;
    };
    if !is_count(files.len()) || !is_apart(script.as_str(), cert.as_str(), files) {
        return None;
    }
    Some(Command::Check {
        input: Input {
            top: top.as_str(),
            script: Word {
                place: 2,
                text: script.as_str(),
            },
            files: Files {
                first: 4,
                texts: files,
            },
        },
        cert: cert.as_str(),
    })
}

// The words behind `known`.
fn known_in(words: &[String]) -> Option<Command<'_>>
    ensures { option_map plain_command result ≡ known_of (map string_bytes words.now) }
{
    let [top, script, files @ ..] = words else {
        return None;
    };
    if !is_count(files.len()) {
        return None;
    }
    Some(Command::Known(Input {
        top: top.as_str(),
        script: Word {
            place: 2,
            text: script.as_str(),
        },
        files: Files {
            first: 3,
            texts: files,
        },
    }))
}

// The words behind `demo`.
fn demo_in(words: &[String]) -> Option<Command<'_>>
    ensures { option_map plain_command result ≡ demo_of (map string_bytes words.now) }
{
    let [number] = words else {
        return None;
    };
    demo_number(number.as_bytes()).map(|n| Command::Demo(n))
}

/// The command that the words spell, without the program's name: none where they are no form of the table of commands. It takes
/// no memory.
pub fn read_command(words: &[String]) -> Option<Command<'_>>
    ensures { option_map plain_command result ≡ command_of (map string_bytes words.now) }
{
    let [name, rest @ ..] = words else {
        return None;
    };
    match name.as_str() {
        "check" => check_in(rest),
        "known" => known_in(rest),
        "demo" => demo_in(rest),
        _ => None,
    }
}
