// What was read of the evidence.
ghost use Rattle.std.specs.Prelude.{◌≡◌, IfOk, ◌+◌, ◌^◌, ◌-◌, min, length, codes};
ghost use Rattle.std.specs.List.{list_all};
ghost use Rattle.rst_cert_lines.specs.Readers.{step_at, free_step_at, state_at, clause_at, hop_line_at, entry_at};
ghost use Rattle.rst_cert_reader.specs.Headings.{Gives, Becomes, whole, number_in};
ghost use Rattle.rst_cert_reader.specs.Readings.{nothing};
ghost use Rattle.rst_cert_reader.specs.Sections.{is_known, free_where, before_of, marked_behind, blocked_behind, freed_behind, shape_of, place_of, with_entry, with_free_step, with_step, with_word, with_blocked, with_freed, with_first, with_second, with_work, with_item, with_equal, with_a, with_b, begun_by, BeginsAs, is_clause, is_digit, is_long_number, is_long_behind, is_long_log};
ghost use Rattle.rst_cert_reader.specs.Kept.{with_clause};
ghost use Rattle.rst_cert_lines.specs.Reading.{after};

use crate::heading::{Heading, read_number};
use crate::section::Section;
use rst_cert_lines::{
    Cursor, LineFault, Place, Shape, clause, entry, free_step, hop_line, state, step,
};
use rst_clause::{Clause, Log};
use rst_gate::{Bits, Cube, Pattern, Sequence};
use rst_outside::NoMemory;
use rst_pair::{Entry, Hop, Journal};
use rst_value::Tern;
use rst_verdict::Hops;
use std::alloc::Global;

/// The evidence that was read so far. What the kind of the certificate doesn't have is empty.
#[derive(Drop)]
pub struct Gathered {
    pub seq: Pattern,
    pub plain: Sequence,
    pub word: Sequence,
    pub equal: Bits,
    pub a: Bits,
    pub b: Bits,
    pub blocked: Hops,
    pub freed: Hops,
    pub first: Log,
    pub second: Log,
    pub journal: Journal,
    pub marked: u16,
    pub blocked_entries: u32,
    pub freed_entries: u32,
}

fn is_known(place: Tern) -> bool
    ensures { result ≡ is_known place }
{
    match place {
        Tern::Zero | Tern::One => true,
        Tern::Unknown => false,
    }
}

fn are_known(places: &[Tern]) -> bool
    ensures { result ≡ list_all is_known places.now }
{
    places.iter().all(|place| is_known(*place))
}

fn shape_of(heading: &Heading) -> Shape
    ensures { result ≡ shape_of heading.now }
{
    Shape {
        registers: heading.registers,
        inputs: heading.inputs,
    }
}

fn marked_in(bits: &[bool]) -> u16
    ensures { result ≡ marked_behind 0 bits.now }
{
    let mut marked: u16 = 0;
    for bit in bits {
        if *bit {
            marked = marked.saturating_add(1);
        }
    }
    marked
}

fn before(count: usize) -> u32
    ensures { result ≡ min count (2 ^ 32 - 1) }
{
    if count < 4_294_967_295 {
        count as u32
    } else {
        4_294_967_295
    }
}

fn blocked_behind(before: u32, entry: &Entry) -> u32
    ensures { result ≡ blocked_behind before entry.now }
{
    match entry {
        Entry::Blocked(_, _) => before.saturating_add(1),
        _ => before,
    }
}

fn freed_behind(before: u32, entry: &Entry) -> u32
    ensures { result ≡ freed_behind before entry.now }
{
    match entry {
        Entry::Freed(_, _) => before.saturating_add(1),
        _ => before,
    }
}

// Each of these reads a whole line.
fn whole_step(alloc: Global, inputs: u16, line: &[u8]) -> Result<Bits, LineFault>
    ensures { Gives (whole (step_at inputs line.now)) result }
{
    let mut cursor = Cursor::new(line);
    let found = step(&mut cursor, alloc, inputs)?;
    if cursor.is_at_end() {
        Ok(found)
    } else {
        Err(LineFault::Wrong)
    }
}

fn whole_free_step(alloc: Global, inputs: u16, line: &[u8]) -> Result<Cube, LineFault>
    ensures { Gives (whole (free_step_at inputs line.now)) result }
{
    let mut cursor = Cursor::new(line);
    let found = free_step(&mut cursor, alloc, inputs)?;
    if cursor.is_at_end() {
        Ok(found)
    } else {
        Err(LineFault::Wrong)
    }
}

fn whole_state(alloc: Global, word: &[u8], count: u16, line: &[u8]) -> Result<Bits, LineFault>
    ensures { Gives (whole (state_at word.now count line.now)) result }
{
    let mut cursor = Cursor::new(line);
    let found = state(&mut cursor, alloc, word, count)?;
    if cursor.is_at_end() {
        Ok(found)
    } else {
        Err(LineFault::Wrong)
    }
}

fn whole_hop(
    alloc: Global,
    shape: Shape,
    word: &[u8],
    before: u32,
    line: &[u8],
) -> Result<Hop, LineFault>
    ensures { Gives (whole (hop_line_at shape word.now before line.now)) result }
{
    let mut cursor = Cursor::new(line);
    let found = hop_line(&mut cursor, alloc, shape, word, before)?;
    if cursor.is_at_end() {
        Ok(found)
    } else {
        Err(LineFault::Wrong)
    }
}

fn whole_clause(alloc: Global, line: &[u8]) -> Result<Clause, LineFault>
    ensures { Gives (whole (clause_at line.now)) result }
{
    let mut cursor = Cursor::new(line);
    let found = clause(&mut cursor, alloc)?;
    if cursor.is_at_end() {
        Ok(found)
    } else {
        Err(LineFault::Wrong)
    }
}

fn whole_entry(alloc: Global, place: Place, line: &[u8]) -> Result<Entry, LineFault>
    ensures { Gives (whole (entry_at place line.now)) result }
{
    let mut cursor = Cursor::new(line);
    let found = entry(&mut cursor, alloc, place)?;
    if cursor.is_at_end() {
        Ok(found)
    } else {
        Err(LineFault::Wrong)
    }
}

/// Whether the line is a clause of a log.
#[tactic(auto, unfolding(crate::specs::Sections::is_clause))]
pub(crate) fn is_clause(alloc: Global, line: &[u8]) -> Result<bool, NoMemory>
    ensures { IfOk result (λ is. is ≡ is_clause line.now) }
{
    match whole_clause(alloc, line) {
        Ok(clause) => {
            drop(clause);
            Ok(true)
        }
        Err(LineFault::Wrong) => Ok(false),
        Err(LineFault::NoMemory) => Err(NoMemory),
    }
}

/// Whether the byte is a decimal digit.
pub(crate) fn is_digit(digit: u8) -> bool
    ensures { result ≡ is_digit digit }
{
    48 <= digit && digit <= 57
}

fn are_digits(digits: &[u8]) -> bool
    ensures { result ≡ list_all is_digit digits.now }
{
    digits.iter().all(|digit| is_digit(*digit))
}

// Whether these are twenty decimal digits or more, without leading zeros.
fn is_long_number(digits: &[u8]) -> bool
    ensures { result ≡ is_long_number digits.now }
{
    digits.len() >= 20 && are_digits(digits) && &digits[..1] != b"0".as_slice()
}

// Whether the line is this word and a long number.
fn is_long_behind(word: &[u8], line: &[u8]) -> bool
    ensures { result ≡ is_long_behind (after word.now line.now) }
{
    let mut cursor = Cursor::new(line);
    match cursor.after(word) {
        Ok(()) => is_long_number(cursor.rest()),
        Err(_) => false,
    }
}

/// Whether the line is the first of a log with a long number of clauses.
#[tactic(auto, unfolding(crate::specs::Sections::is_long_log))]
pub(crate) fn is_long_log(section: Section, line: &[u8]) -> bool
    ensures { result ≡ is_long_log section line.now }
{
    match section {
        Section::SplitLog => is_long_behind(b"log split ", line),
        Section::LandLog => is_long_behind(b"log land ", line),
        Section::EscapeLog => is_long_behind(b"log escape ", line),
        Section::StuckLog => is_long_behind(b"log stuck ", line),
        _ => false,
    }
}

// A cube whose bits may be free, or none is.
fn read_cube(alloc: Global, free: bool, inputs: u16, line: &[u8]) -> Result<Cube, LineFault>
    ensures { Gives (free_where free (whole (free_step_at inputs line.now))) result }
{
    let places = whole_free_step(alloc, inputs, line)?;
    if free || are_known(places.as_slice()) {
        Ok(places)
    } else {
        Err(LineFault::Wrong)
    }
}

impl Gathered {
    /// Nothing. It takes no memory.
    pub(crate) fn new(alloc: Global) -> Gathered
        ensures { result ≡ nothing }
    {
        Gathered {
            seq: Pattern::new(alloc),
            plain: Sequence::new(alloc),
            word: Sequence::new(alloc),
            equal: Bits::new(alloc),
            a: Bits::new(alloc),
            b: Bits::new(alloc),
            blocked: Hops::new(alloc),
            freed: Hops::new(alloc),
            first: Log::new(alloc),
            second: Log::new(alloc),
            journal: Journal::new(alloc),
            marked: 0,
            blocked_entries: 0,
            freed_entries: 0,
        }
    }

    // Where a unit of work stands.
    fn place(&self, heading: &Heading) -> Place
        ensures { result ≡ place_of heading.now self.now }
    {
        Place {
            shape: shape_of(heading),
            marked: self.marked,
            free: heading.version == 2,
            blocked: self.blocked_entries,
            freed: self.freed_entries,
        }
    }

    #[tactic(auto, unfolding(crate::specs::Sections::with_free_step))]
    fn read_free_step(
        &mut self,
        alloc: Global,
        heading: &Heading,
        line: &[u8],
    ) -> Result<(), LineFault>
        ensures { Becomes (with_free_step heading.now self.old line.now) result self.new }
    {
        let places = read_cube(alloc, heading.version == 2, heading.inputs, line)?;
        self.seq.push(places)?;
        Ok(())
    }

    #[tactic(auto, unfolding(crate::specs::Sections::with_step))]
    fn read_step(&mut self, alloc: Global, heading: &Heading, line: &[u8]) -> Result<(), LineFault>
        ensures { Becomes (with_step heading.now self.old line.now) result self.new }
    {
        let input = whole_step(alloc, heading.inputs, line)?;
        self.plain.push(input)?;
        Ok(())
    }

    #[tactic(auto, unfolding(crate::specs::Sections::with_word))]
    fn read_word(&mut self, alloc: Global, heading: &Heading, line: &[u8]) -> Result<(), LineFault>
        ensures { Becomes (with_word heading.now self.old line.now) result self.new }
    {
        let input = whole_step(alloc, heading.inputs, line)?;
        self.word.push(input)?;
        Ok(())
    }

    #[tactic(auto, unfolding(crate::specs::Sections::with_blocked))]
    fn read_blocked(
        &mut self,
        alloc: Global,
        heading: &Heading,
        line: &[u8],
    ) -> Result<(), LineFault>
        ensures { Becomes (with_blocked heading.now self.old line.now) result self.new }
    {
        let before = before(self.blocked.len());
        let hop = whole_hop(alloc, shape_of(heading), b"out", before, line)?;
        self.blocked.push(hop)?;
        Ok(())
    }

    #[tactic(auto, unfolding(crate::specs::Sections::with_freed))]
    fn read_freed(&mut self, alloc: Global, heading: &Heading, line: &[u8]) -> Result<(), LineFault>
        ensures { Becomes (with_freed heading.now self.old line.now) result self.new }
    {
        let before = before(self.freed.len());
        let hop = whole_hop(alloc, shape_of(heading), b"in", before, line)?;
        self.freed.push(hop)?;
        Ok(())
    }

    #[tactic(auto, unfolding(crate::specs::Sections::with_first))]
    fn read_first(&mut self, alloc: Global, line: &[u8]) -> Result<(), LineFault>
        ensures { Becomes (with_first self.old line.now) result self.new }
    {
        let clause = whole_clause(alloc, line)?;
        self.first.push(clause)?;
        Ok(())
    }

    #[tactic(auto, unfolding(crate::specs::Sections::with_second))]
    fn read_second(&mut self, alloc: Global, line: &[u8]) -> Result<(), LineFault>
        ensures { Becomes (with_second self.old line.now) result self.new }
    {
        let clause = whole_clause(alloc, line)?;
        self.second.push(clause)?;
        Ok(())
    }

    /// Keeps one more clause of a log.
    pub(crate) fn keep_clause(&mut self, section: Section, clause: Clause) -> Result<(), LineFault>
        ensures { Becomes (with_clause section self.old clause) result self.new }
    {
        match section {
            Section::SplitLog | Section::EscapeLog => self.first.push(clause)?,
            Section::LandLog | Section::StuckLog => self.second.push(clause)?,
            _ => {
                drop(clause);
                return Err(LineFault::Wrong);
            }
        }
        Ok(())
    }

    #[tactic(auto, unfolding(crate::specs::Sections::with_work))]
    fn read_work(&mut self, alloc: Global, heading: &Heading, line: &[u8]) -> Result<(), LineFault>
        ensures { Becomes (with_work heading.now self.old line.now) result self.new }
    {
        let place = self.place(heading);
        let entry = whole_entry(alloc, place, line)?;
        let blocked = blocked_behind(self.blocked_entries, &entry);
        let freed = freed_behind(self.freed_entries, &entry);
        self.journal.push(entry)?;
        self.blocked_entries = blocked;
        self.freed_entries = freed;
        Ok(())
    }

    /// Reads one more line of a section that has begun.
    pub(crate) fn read_item(
        &mut self,
        alloc: Global,
        heading: &Heading,
        section: Section,
        line: &[u8],
    ) -> Result<(), LineFault>
        ensures { Becomes (with_item heading.now section self.old line.now) result self.new }
    {
        match section {
            Section::FreeSteps => self.read_free_step(alloc, heading, line),
            Section::Steps => self.read_step(alloc, heading, line),
            Section::Word => self.read_word(alloc, heading, line),
            Section::Blocked => self.read_blocked(alloc, heading, line),
            Section::Freed => self.read_freed(alloc, heading, line),
            Section::SplitLog | Section::EscapeLog => self.read_first(alloc, line),
            Section::LandLog | Section::StuckLog => self.read_second(alloc, line),
            Section::Journal => self.read_work(alloc, heading, line),
            Section::Equal | Section::StateA | Section::StateB => Err(LineFault::Wrong),
        }
    }

    #[tactic(auto, unfolding(crate::specs::Sections::with_equal))]
    fn read_equal(
        &mut self,
        alloc: Global,
        heading: &Heading,
        line: &[u8],
    ) -> Result<u64, LineFault>
        ensures { BeginsAs (with_equal heading.now self.old line.now) result self.new }
    {
        let bits = whole_state(alloc, b"equal", heading.registers, line)?;
        self.marked = marked_in(bits.as_slice());
        self.equal = bits;
        Ok(0)
    }

    #[tactic(auto, unfolding(crate::specs::Sections::with_a))]
    fn read_a(&mut self, alloc: Global, heading: &Heading, line: &[u8]) -> Result<u64, LineFault>
        ensures { BeginsAs (with_a heading.now self.old line.now) result self.new }
    {
        self.a = whole_state(alloc, b"a", heading.registers, line)?;
        Ok(0)
    }

    #[tactic(auto, unfolding(crate::specs::Sections::with_b))]
    fn read_b(&mut self, alloc: Global, heading: &Heading, line: &[u8]) -> Result<u64, LineFault>
        ensures { BeginsAs (with_b heading.now self.old line.now) result self.new }
    {
        self.b = whole_state(alloc, b"b", heading.registers, line)?;
        Ok(0)
    }

    /// Reads the first line of a section, and answers how many lines of it follow.
    pub(crate) fn read_first_line(
        &mut self,
        alloc: Global,
        heading: &Heading,
        section: Section,
        line: &[u8],
    ) -> Result<u64, LineFault>
        ensures { BeginsAs (begun_by heading.now section self.old line.now) result self.new }
    {
        match section {
            Section::FreeSteps => {
                self.seq = Pattern::new(alloc);
                read_number(line, b"sequence", 128)
            }
            Section::Steps => {
                self.plain = Sequence::new(alloc);
                read_number(line, b"sequence", 128)
            }
            Section::Word => {
                self.word = Sequence::new(alloc);
                read_number(line, b"word", 100_000)
            }
            Section::Equal => self.read_equal(alloc, heading, line),
            Section::StateA => self.read_a(alloc, heading, line),
            Section::StateB => self.read_b(alloc, heading, line),
            Section::Blocked => {
                self.blocked = Hops::new(alloc);
                read_number(line, b"blocked", 100_000)
            }
            Section::Freed => {
                self.freed = Hops::new(alloc);
                read_number(line, b"freed", 100_000)
            }
            Section::SplitLog => {
                self.first = Log::new(alloc);
                read_number(line, b"log split", u64::MAX)
            }
            Section::LandLog => {
                self.second = Log::new(alloc);
                read_number(line, b"log land", u64::MAX)
            }
            Section::EscapeLog => {
                self.first = Log::new(alloc);
                read_number(line, b"log escape", u64::MAX)
            }
            Section::StuckLog => {
                self.second = Log::new(alloc);
                read_number(line, b"log stuck", u64::MAX)
            }
            Section::Journal => {
                self.journal = Journal::new(alloc);
                self.blocked_entries = 0;
                self.freed_entries = 0;
                read_number(line, b"journal", 100_000)
            }
        }
    }
}
