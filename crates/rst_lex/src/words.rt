//! Words that have a meaning of their own.
ghost use Rattle.std.specs.Prelude.{◌≡◌, bytes_eq};
ghost use Rattle.std.specs.List.{list_any, list_all};
ghost use Rattle.rst_lex.specs.Bytes.{is_name_byte};
ghost use Rattle.rst_lex.specs.Words.{is_profile_keyword, is_refused_keyword, is_keyword, is_identifier, is_name};

use crate::bytes::{is_name_byte, is_name_start};

/// The keywords that the profile reads.
pub const KEYWORDS: [&str; 22] = [
    "module",
    "endmodule",
    "input",
    "output",
    "wire",
    "reg",
    "signed",
    "parameter",
    "localparam",
    "assign",
    "always",
    "posedge",
    "negedge",
    "or",
    "begin",
    "end",
    "if",
    "else",
    "case",
    "casez",
    "default",
    "endcase",
];

/// The keywords that the profile refuses. They are keywords of IEEE 1364-2001 (annex B) all the same.
pub const REFUSED_KEYWORDS: [&str; 86] = [
    "and",
    "automatic",
    "buf",
    "bufif0",
    "bufif1",
    "casex",
    "cmos",
    "deassign",
    "defparam",
    "disable",
    "edge",
    "endfunction",
    "endgenerate",
    "endprimitive",
    "endspecify",
    "endtable",
    "endtask",
    "event",
    "for",
    "force",
    "forever",
    "fork",
    "function",
    "generate",
    "genvar",
    "highz0",
    "highz1",
    "ifnone",
    "initial",
    "inout",
    "integer",
    "join",
    "large",
    "macromodule",
    "medium",
    "nand",
    "nmos",
    "nor",
    "not",
    "notif0",
    "notif1",
    "pmos",
    "primitive",
    "pull0",
    "pull1",
    "pulldown",
    "pullup",
    "rcmos",
    "real",
    "realtime",
    "release",
    "repeat",
    "rnmos",
    "rpmos",
    "rtran",
    "rtranif0",
    "rtranif1",
    "scalared",
    "small",
    "specify",
    "specparam",
    "strong0",
    "strong1",
    "supply0",
    "supply1",
    "table",
    "task",
    "time",
    "tran",
    "tranif0",
    "tranif1",
    "tri",
    "tri0",
    "tri1",
    "triand",
    "trior",
    "trireg",
    "vectored",
    "wait",
    "wand",
    "weak0",
    "weak1",
    "while",
    "wor",
    "xnor",
    "xor",
];

fn is_listed(words: &[&str], bytes: &[u8]) -> bool
    ensures { result ≡ list_any (λ word. bytes_eq word.now bytes.now) words.now }
{
    words.iter().any(|word| word.as_bytes() == bytes)
}

fn is_profile_keyword(bytes: &[u8]) -> bool
    ensures { result ≡ is_profile_keyword bytes.now }
{
    is_listed(&KEYWORDS, bytes)
}

fn is_refused_keyword(bytes: &[u8]) -> bool
    ensures { result ≡ is_refused_keyword bytes.now }
{
    is_listed(&REFUSED_KEYWORDS, bytes)
}

/// Whether the bytes are a keyword: one of the profile, or one that it refuses.
pub fn is_keyword(bytes: &[u8]) -> bool
    ensures { result ≡ is_keyword bytes.now }
{
    is_profile_keyword(bytes) || is_refused_keyword(bytes)
}

fn are_name_bytes(bytes: &[u8]) -> bool
    ensures { result ≡ list_all is_name_byte bytes.now }
{
    bytes.iter().all(|b| is_name_byte(*b))
}

fn is_identifier(bytes: &[u8]) -> bool
    ensures { result ≡ is_identifier bytes.now }
{
    match bytes {
        [] => false,
        [first, rest @ ..] => is_name_start(*first) && are_name_bytes(rest),
    }
}

/// Whether the bytes are a name: an identifier (IEEE 1364-2001, section 2.7) that is no keyword. An
/// identifier is a letter or `_`, and then letters, digits, `_` and `$`.
pub fn is_name(bytes: &[u8]) -> bool
    ensures { result ≡ is_name bytes.now }
{
    is_identifier(bytes) && !is_keyword(bytes)
}
