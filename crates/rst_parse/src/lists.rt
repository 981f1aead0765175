// Reading lists of parts.

ghost use Rattle.std.specs.Prelude.{◌≡◌, ◌≢◌, ◌∷◌, [], map, Some, Ok, IfOk, IfErr};
ghost use Rattle.std.specs.Option.{option_map};
ghost use Rattle.rst_grammar.specs.ReadParts.{ReaderOf, comma, comma_before_name, separated, more_separated};
ghost use Rattle.rst_grammar.specs.ReadItems.{or_comma};
ghost use Rattle.rst_read.specs.Gives.{Gives};
ghost use Rattle.rst_parse.specs.Beside.{beside};
ghost use Rattle.rst_parse.specs.Separators.{reader_of};
ghost use Rattle.rst_read.specs.declared.stop.Stop.TheVariants.{NoMemory};

use rst_grammar::{Symbol, Terminal};
use rst_read::{Stop, behind};
use std::alloc::Global;

/// What stands between the parts of a list.
#[derive(Clone, Copy)]
pub(crate) enum Separator {
    Comma,
    /// A comma, where a name stands behind it.
    CommaBeforeName,
    /// `or`, or a comma.
    OrComma,
}

/// What reads one kind of part.
pub(crate) trait Reader {
    type Part: Drop;

    /// The part in plain form.
    ghost Plain: { Type 0 };

    ghost plain: { Self.Part → Plain };

    /// The reader of the specification that it is.
    ghost reader: { Self → ReaderOf Plain };

    /// The part in front, and the symbols behind it.
    fn read<'s, 'a>(
        &self,
        alloc: Global,
        symbols: &'s [Symbol<'a>],
    ) -> Result<(Self::Part, &'s [Symbol<'a>]), Stop>
        ensures { Gives (beside plain) result (reader self.now symbols.now) };
}

#[tactic(auto, unfolding(rst_grammar::specs::ReadParts::comma))]
fn comma<'s, 'a>(symbols: &'s [Symbol<'a>]) -> Option<&'s [Symbol<'a>]>
    ensures { option_map (λ x. x.now) result ≡ comma symbols.now }
{
    behind(symbols, Terminal::Comma)
}

// The symbols behind a comma, where the first of them is a name.
#[tactic(auto, unfolding(rst_grammar::specs::ReadParts::comma_before_name))]
fn comma_before_name<'s, 'a>(symbols: &'s [Symbol<'a>]) -> Option<&'s [Symbol<'a>]>
    ensures { option_map (λ x. x.now) result ≡ comma_before_name symbols.now }
{
    let [Symbol::Terminal(Terminal::Comma), rest @ ..] = symbols else {
        return None;
    };
    match rest {
        [Symbol::Name(_), ..] => Some(rest),
        _ => None,
    }
}

#[tactic(auto, unfolding(rst_grammar::specs::ReadItems::or_comma))]
fn or_comma<'s, 'a>(symbols: &'s [Symbol<'a>]) -> Option<&'s [Symbol<'a>]>
    ensures { option_map (λ x. x.now) result ≡ or_comma symbols.now }
{
    match symbols {
        [Symbol::Terminal(Terminal::Or | Terminal::Comma), rest @ ..] => Some(rest),
        _ => None,
    }
}

// The symbols behind a separator.
fn behind_separator<'s, 'a>(
    separator: Separator,
    symbols: &'s [Symbol<'a>],
) -> Option<&'s [Symbol<'a>]>
    ensures { option_map (λ x. x.now) result ≡ reader_of separator symbols.now }
{
    match separator {
        Separator::Comma => comma(symbols),
        Separator::CommaBeforeName => comma_before_name(symbols),
        Separator::OrComma => or_comma(symbols),
    }
}

// A list of one part, and the symbols behind it.
fn alone<'s, 'a, T: Drop>(
    alloc: Global,
    first: T,
    rest: &'s [Symbol<'a>],
) -> Result<(Vec<T>, &'s [Symbol<'a>]), Stop>
    ensures parts { IfOk result (λ x. x.0.items ≡ first ∷ []) }
    ensures behind { IfOk result (λ x. x.1.now ≡ rest.now) }
    ensures memory { IfErr result (λ e. e ≡ NoMemory) }
{
    let mut parts = Vec::new(alloc);
    parts.push(first)?;
    Ok((parts, rest))
}

/// One part, and the others with separators between them.
pub(crate) fn separated<'s, 'a, R: Reader>(
    reader: &R,
    separator: Separator,
    alloc: Global,
    symbols: &'s [Symbol<'a>],
) -> Result<(Vec<R::Part>, &'s [Symbol<'a>]), Stop>
    ensures { Gives (beside (λ parts. map R.plain parts.items)) result (separated (reader_of separator) (R.reader reader.now) symbols.now) }
{
    let (first, rest) = reader.read(alloc, symbols)?;
    let turns = rest.len();
    let (mut parts, mut rest) = alone(alloc, first, rest)?;
    for _ in 0..turns {
        let Some(after) = behind_separator(separator, rest) else {
            return Ok((parts, rest));
        };
        let (next, after) = reader.read(alloc, after)?;
        parts.push(next)?;
        rest = after;
    }
    Ok((parts, rest))
}
