// Sections of a certificate's text, and their lines.
ghost use Rattle.std.specs.Prelude.{◌≡◌, ◌+◌, ◌≤◌, ◌<◌, [], ◌∷◌, ◌++◌, map, length, codes};
ghost use Rattle.std.specs.List.{flat_map};
ghost use Rattle.rst_certificate.specs.Words.{counted, digit, bits_text, cube_text};
ghost use Rattle.rst_certificate.specs.Words as words;
ghost use Rattle.rst_certificate.specs.CertText.{step_line, free_step_line, target_text, hop_text, blocked_line, freed_line, clause_line, query_word, entry_line};
ghost use Rattle.rst_certificate.specs.Atoms.{line_state, Adds, line_work};
ghost use Rattle.rst_certificate.specs.Sections.{section_text, GoesOn};

use crate::atom::Atom;
use crate::line::Line;
use rst_clause::Clause;
use rst_gate::{Bits, Cube};
use rst_pair::{Entry, Hop, Kind};

// A line, or lines of one kind, of the certificate that they show.
#[derive(Clone, Copy)]
pub(crate) enum Section<'a> {
    // A line with these bytes.
    Line(&'a [u8]),
    // A line with a word and a name behind it.
    Named(&'a [u8], &'a [u8]),
    // A line with a word and a number.
    Numbered(&'a [u8], u64),
    // A line with a word and bits.
    State(&'a [u8], &'a [bool]),
    // A line a cycle.
    Steps(&'a [Bits]),
    // A line a cycle, with `-` for a free bit.
    FreeSteps(&'a [Cube]),
    // A line a hop.
    BlockedHops(&'a [Hop]),
    FreedHops(&'a [Hop]),
    // A line a clause.
    Clauses(&'a [Clause]),
    // A line a unit of work.
    Entries(&'a [Entry]),
}

fn put_step<'a>(line: &mut Line<'a>, input: &'a Bits)
    requires { line.old.count < 8 }
    ensures { Adds line.old line.new (step_line input.now) 2 }
{
    line.put(Atom::Word(b"step ="));
    line.put(Atom::Digits(input.as_slice()));
}

fn put_free_step<'a>(line: &mut Line<'a>, places: &'a Cube)
    requires { line.old.count < 8 }
    ensures { Adds line.old line.new (free_step_line places.now) 2 }
{
    line.put(Atom::Word(b"step ="));
    line.put(Atom::Places(places.as_slice()));
}

// Where a hop leads: the word, or the number of an earlier hop.
fn put_target<'a>(line: &mut Line<'a>, word: &'a [u8], next: Option<u32>)
    requires { line.old.count < 10 }
    ensures { Adds line.old line.new (target_text word.now next) 2 }
{
    match next {
        None => line.put(Atom::Word(word)),
        Some(next) => {
            line.put(Atom::Word(b"to "));
            line.put(Atom::Number(u64::from(next)));
        }
    }
}

// A hop's cube, its input, and where it leads.
fn put_hop<'a>(line: &mut Line<'a>, word: &'a [u8], hop: &'a Hop)
    requires { line.old.count < 4 }
    ensures { Adds line.old line.new (hop_text word.now hop.now) 7 }
{
    line.put(Atom::Word(b"="));
    line.put(Atom::Places(hop.cube.as_slice()));
    line.put(Atom::Word(b" via ="));
    line.put(Atom::Digits(hop.input.as_slice()));
    line.put(Atom::Word(b" "));
    put_target(line, word, hop.next);
}

fn put_blocked<'a>(line: &mut Line<'a>, hop: &'a Hop)
    requires { line.old.count < 2 }
    ensures { Adds line.old line.new (blocked_line hop.now) 8 }
{
    line.put(Atom::Word(b"cube "));
    put_hop(line, b"out", hop);
}

fn put_freed<'a>(line: &mut Line<'a>, hop: &'a Hop)
    requires { line.old.count < 2 }
    ensures { Adds line.old line.new (freed_line hop.now) 8 }
{
    line.put(Atom::Word(b"cube "));
    put_hop(line, b"in", hop);
}

fn put_clause<'a>(line: &mut Line<'a>, clause: &'a Clause)
    requires { line.old.count < 2 }
    ensures { Adds line.old line.new (clause_line clause.now) 3 }
{
    line.put(Atom::Word(b"clause "));
    line.put(Atom::Literals(clause.as_slice()));
    line.put(Atom::Word(b"0"));
}

// The digit of a level, behind a space.
fn level_word(level: bool) -> &'static [u8]
    ensures { result.now ≡ 32 ∷ digit level ∷ [] }
{
    if level { b" 1" } else { b" 0" }
}

fn query_word(kind: Kind) -> &'static [u8]
    ensures { result.now ≡ query_word kind }
{
    match kind {
        Kind::Split => b"split",
        Kind::Land => b"land",
        Kind::Escape => b"escape",
        Kind::Stuck => b"stuck",
    }
}

// The pair that a hop was found for.
fn put_pair<'a>(line: &mut Line<'a>, pair: &'a Bits)
    requires { line.old.count < 10 }
    ensures { Adds line.old line.new (codes " pair " ++ bits_text pair.now) 2 }
{
    line.put(Atom::Word(b" pair ="));
    line.put(Atom::Digits(pair.as_slice()));
}

fn put_built<'a>(line: &mut Line<'a>, a: &'a Bits, b: &'a Bits)
    requires { line.old.count < 2 }
    ensures { Adds line.old line.new (codes "built " ++ bits_text a.now ++ codes " " ++ bits_text b.now) 4 }
{
    line.put(Atom::Word(b"built ="));
    line.put(Atom::Digits(a.as_slice()));
    line.put(Atom::Word(b" ="));
    line.put(Atom::Digits(b.as_slice()));
}

fn put_conflict<'a>(line: &mut Line<'a>, kind: Kind, cube: &'a Cube)
    requires { line.old.count < 2 }
    ensures { Adds line.old line.new (codes "conflict " ++ query_word kind ++ codes " " ++ cube_text cube.now) 4 }
{
    line.put(Atom::Word(b"conflict "));
    line.put(Atom::Word(query_word(kind)));
    line.put(Atom::Word(b" ="));
    line.put(Atom::Places(cube.as_slice()));
}

fn put_entry<'a>(line: &mut Line<'a>, entry: &'a Entry)
    requires { line.old.count < 2 }
    ensures { Adds line.old line.new (entry_line entry.now) 10 }
{
    match entry {
        Entry::Candidate(input, level) => {
            line.put(Atom::Word(b"candidate "));
            line.put(Atom::Number(u64::from(*input)));
            line.put(Atom::Word(level_word(*level)));
        }
        Entry::Conflict(kind, cube) => put_conflict(line, *kind, cube),
        Entry::Blocked(hop, pair) => {
            line.put(Atom::Word(b"blocked "));
            put_hop(line, b"out", hop);
            put_pair(line, pair);
        }
        Entry::Freed(hop, pair) => {
            line.put(Atom::Word(b"freed "));
            put_hop(line, b"in", hop);
            put_pair(line, pair);
        }
        Entry::Built(a, b) => put_built(line, a, b),
    }
}

fn first_step<'a>(word: &'a [Bits], line: &mut Line<'a>) -> Option<Section<'a>>
    requires { line.old ≡ line_state [] }
    ensures { GoesOn (flat_map words.line (map step_line word.now)) line.new result }
{
    match word.split_first() {
        None => None,
        Some((first, rest)) => {
            put_step(line, first);
            line.put(Atom::Word(b"\n"));
            Some(Section::Steps(rest))
        }
    }
}

fn first_free_step<'a>(pattern: &'a [Cube], line: &mut Line<'a>) -> Option<Section<'a>>
    requires { line.old ≡ line_state [] }
    ensures { GoesOn (flat_map words.line (map free_step_line pattern.now)) line.new result }
{
    match pattern.split_first() {
        None => None,
        Some((first, rest)) => {
            put_free_step(line, first);
            line.put(Atom::Word(b"\n"));
            Some(Section::FreeSteps(rest))
        }
    }
}

fn first_blocked<'a>(hops: &'a [Hop], line: &mut Line<'a>) -> Option<Section<'a>>
    requires { line.old ≡ line_state [] }
    ensures { GoesOn (flat_map words.line (map blocked_line hops.now)) line.new result }
{
    match hops.split_first() {
        None => None,
        Some((first, rest)) => {
            put_blocked(line, first);
            line.put(Atom::Word(b"\n"));
            Some(Section::BlockedHops(rest))
        }
    }
}

fn first_freed<'a>(hops: &'a [Hop], line: &mut Line<'a>) -> Option<Section<'a>>
    requires { line.old ≡ line_state [] }
    ensures { GoesOn (flat_map words.line (map freed_line hops.now)) line.new result }
{
    match hops.split_first() {
        None => None,
        Some((first, rest)) => {
            put_freed(line, first);
            line.put(Atom::Word(b"\n"));
            Some(Section::FreedHops(rest))
        }
    }
}

fn first_clause<'a>(clauses: &'a [Clause], line: &mut Line<'a>) -> Option<Section<'a>>
    requires { line.old ≡ line_state [] }
    ensures { GoesOn (flat_map words.line (map clause_line clauses.now)) line.new result }
{
    match clauses.split_first() {
        None => None,
        Some((first, rest)) => {
            put_clause(line, first);
            line.put(Atom::Word(b"\n"));
            Some(Section::Clauses(rest))
        }
    }
}

fn first_entry<'a>(entries: &'a [Entry], line: &mut Line<'a>) -> Option<Section<'a>>
    requires { line.old ≡ line_state [] }
    ensures { GoesOn (flat_map words.line (map entry_line entries.now)) line.new result }
{
    match entries.split_first() {
        None => None,
        Some((first, rest)) => {
            put_entry(line, first);
            line.put(Atom::Word(b"\n"));
            Some(Section::Entries(rest))
        }
    }
}

fn only_words<'a>(bytes: &'a [u8], line: &mut Line<'a>) -> Option<Section<'a>>
    requires { line.old ≡ line_state [] }
    ensures { GoesOn (words.line bytes.now) line.new result }
{
    line.put(Atom::Word(bytes));
    line.put(Atom::Word(b"\n"));
    None
}

fn only_name<'a>(word: &'a [u8], name: &'a [u8], line: &mut Line<'a>) -> Option<Section<'a>>
    requires { line.old ≡ line_state [] }
    ensures { GoesOn (words.line (word.now ++ name.now)) line.new result }
{
    line.put(Atom::Word(word));
    line.put(Atom::Word(name));
    line.put(Atom::Word(b"\n"));
    None
}

fn only_number<'a>(word: &'a [u8], number: u64, line: &mut Line<'a>) -> Option<Section<'a>>
    requires { line.old ≡ line_state [] }
    ensures { GoesOn (words.line (counted word.now number)) line.new result }
{
    line.put(Atom::Word(word));
    line.put(Atom::Word(b" "));
    line.put(Atom::Number(number));
    line.put(Atom::Word(b"\n"));
    None
}

fn only_bits<'a>(word: &'a [u8], bits: &'a [bool], line: &mut Line<'a>) -> Option<Section<'a>>
    requires { line.old ≡ line_state [] }
    ensures { GoesOn (words.line (word.now ++ 32 ∷ bits_text bits.now)) line.new result }
{
    line.put(Atom::Word(word));
    line.put(Atom::Word(b" ="));
    line.put(Atom::Digits(bits));
    line.put(Atom::Word(b"\n"));
    None
}

// Puts the section's first line into an empty one, and answers what is left of the section.
pub(crate) fn first_line<'a>(section: Section<'a>, line: &mut Line<'a>) -> Option<Section<'a>>
    requires { line.old ≡ line_state [] }
    ensures { GoesOn (section_text section.entry) line.new result }
{
    match section {
        Section::Line(bytes) => only_words(bytes, line),
        Section::Named(word, name) => only_name(word, name, line),
        Section::Numbered(word, number) => only_number(word, number, line),
        Section::State(word, bits) => only_bits(word, bits, line),
        Section::Steps(word) => first_step(word, line),
        Section::FreeSteps(pattern) => first_free_step(pattern, line),
        Section::BlockedHops(hops) => first_blocked(hops, line),
        Section::FreedHops(hops) => first_freed(hops, line),
        Section::Clauses(clauses) => first_clause(clauses, line),
        Section::Entries(entries) => first_entry(entries, line),
    }
}
