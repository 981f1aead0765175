// The first name of an expression, a target or a statement that passes a test.

ghost use Rattle.std.specs.Prelude.{◌≡◌, ◌++◌, ◌∷◌, [], Bool, filter};
ghost use Rattle.std.specs.Option.{option_copied};
ghost use Rattle.rst_tree.specs.Trees.{Text, plain, plain_all};
ghost use Rattle.rst_tree.specs.Targets.{plain_target, plain_targets};
ghost use Rattle.rst_tree.specs.Statements.{plain_stmt, plain_stmts, plain_arm, plain_arms, no_arm};
ghost use Rattle.rst_names.specs.Faults.{first};
ghost use Rattle.rst_names.specs.Names.{names_in, names_in_all, names_in_target, names_in_targets, names_in_stmt, names_in_stmts, names_in_arms};

use rst_outside::Name;
use rst_tree::{Arm, Expr, Stmt, Target};

/// A test of names.
pub trait NameTest {
    ghost test: { Self → Text → Bool };

    /// Whether the name passes.
    fn passes(&self, name: &Name) -> bool
        ensures { result ≡ test self.now name.now };
}

fn if_passes<'a, T: NameTest>(name: &'a Name, test: &T) -> Option<&'a Name>
    ensures { option_copied result ≡ first (filter (T.test test.now) (name.now ∷ [])) }
{
    if test.passes(name) { Some(name) } else { None }
}

/// The first name of an expression, in the order of the text, that passes the test.
#[cycle(names)]
#[tactic(auto, using(crate::proofs::NameLemmas::trees))]
pub fn first_in<'a, T: NameTest>(expr: &'a Expr, test: &T) -> Option<&'a Name>
    ensures { option_copied result ≡ first (filter (T.test test.now) (names_in (plain expr.now))) }
{
    match expr {
        Expr::Number(_) => None,
        Expr::Name(name) => if_passes(name, test),
        Expr::Bit(name, index) => match if_passes(name, test) {
            Some(found) => Some(found),
            None => first_in(index, test),
        },
        Expr::Part(name, high, low) => match if_passes(name, test) {
            Some(found) => Some(found),
            None => match first_in(high, test) {
                Some(found) => Some(found),
                None => first_in(low, test),
            },
        },
        Expr::Paren(inner) | Expr::Unary(_, inner) => first_in(inner, test),
        Expr::Signed(inner) | Expr::Unsigned(inner) => first_in(inner, test),
        Expr::Binary(_, left, right) => match first_in(left, test) {
            Some(found) => Some(found),
            None => first_in(right, test),
        },
        Expr::Choose(condition, yes, no) => match first_in(condition, test) {
            Some(found) => Some(found),
            None => match first_in(yes, test) {
                Some(found) => Some(found),
                None => first_in(no, test),
            },
        },
        Expr::Join(parts) => first_in_all(parts, test),
        Expr::Repeat(count, parts) => match first_in(count, test) {
            Some(found) => Some(found),
            None => first_in_all(parts, test),
        },
    }
}

#[cycle(names)]
fn first_in_all<'a, T: NameTest>(parts: &'a [Expr], test: &T) -> Option<&'a Name>
    ensures { option_copied result ≡ first (filter (T.test test.now) (names_in_all (plain_all parts.now))) }
{
    for part in parts {
        if let Some(found) = first_in(part, test) {
            return Some(found);
        }
    }
    None
}

/// The first name of a target, in the order of the text, that passes the test.
#[cycle(targets)]
#[tactic(auto, using(rst_tree::proofs::Rows::target_rows))]
pub fn first_in_target<'a, T: NameTest>(target: &'a Target, test: &T) -> Option<&'a Name>
    ensures { option_copied result ≡ first (filter (T.test test.now) (names_in_target (plain_target target.now))) }
{
    match target {
        Target::Whole(name) => if_passes(name, test),
        Target::Bit(name, index) => match if_passes(name, test) {
            Some(found) => Some(found),
            None => first_in(index, test),
        },
        Target::Part(name, high, low) => match if_passes(name, test) {
            Some(found) => Some(found),
            None => first_of_two(high, low, test),
        },
        Target::Join(parts) => first_in_targets(parts, test),
    }
}

// The first of two expressions.
fn first_of_two<'a, T: NameTest>(left: &'a Expr, right: &'a Expr, test: &T) -> Option<&'a Name>
    ensures { option_copied result ≡ first (filter (T.test test.now) (names_in (plain left.now) ++ names_in (plain right.now))) }
{
    match first_in(left, test) {
        Some(found) => Some(found),
        None => first_in(right, test),
    }
}

#[cycle(targets)]
fn first_in_targets<'a, T: NameTest>(parts: &'a [Target], test: &T) -> Option<&'a Name>
    ensures { option_copied result ≡ first (filter (T.test test.now) (names_in_targets (plain_targets parts.now))) }
{
    for part in parts {
        if let Some(found) = first_in_target(part, test) {
            return Some(found);
        }
    }
    None
}

/// The first name of a statement, in the order of the text, that passes the test.
#[cycle(statements)]
#[tactic(auto, using(crate::proofs::NameLemmas::statements))]
pub fn first_in_stmt<'a, T: NameTest>(stmt: &'a Stmt, test: &T) -> Option<&'a Name>
    ensures { option_copied result ≡ first (filter (T.test test.now) (names_in_stmt (plain_stmt stmt.now))) }
{
    match stmt {
        Stmt::Block(parts) => first_in_stmts(parts, test),
        Stmt::If(condition, then, otherwise) => match first_in(condition, test) {
            Some(found) => Some(found),
            None => match first_in_stmt(then, test) {
                Some(found) => Some(found),
                None => match otherwise {
                    Some(otherwise) => first_in_stmt(otherwise, test),
                    None => None,
                },
            },
        },
        Stmt::Case(case) => match first_in(&case.selector, test) {
            Some(found) => Some(found),
            None => first_in_arms(&case.arms, test),
        },
        Stmt::Set(set) => match first_in_target(&set.target, test) {
            Some(found) => Some(found),
            None => first_in(&set.value, test),
        },
        Stmt::Empty => None,
    }
}

#[cycle(statements)]
fn first_in_stmts<'a, T: NameTest>(parts: &'a [Stmt], test: &T) -> Option<&'a Name>
    ensures { option_copied result ≡ first (filter (T.test test.now) (names_in_stmts (plain_stmts parts.now))) }
{
    for part in parts {
        if let Some(found) = first_in_stmt(part, test) {
            return Some(found);
        }
    }
    None
}

#[cycle(statements)]
fn first_in_arms<'a, T: NameTest>(arms: &'a [Arm], test: &T) -> Option<&'a Name>
    ensures { option_copied result ≡ first (filter (T.test test.now) (names_in_arms (plain_arms arms.now))) }
{
    for arm in arms {
        if let Some(found) = first_in_arm(arm, test) {
            return Some(found);
        }
    }
    None
}

#[cycle(statements)]
fn first_in_arm<'a, T: NameTest>(arm: &'a Arm, test: &T) -> Option<&'a Name>
    ensures { option_copied result ≡ first (filter (T.test test.now) (names_in_arms (plain_arm arm.now no_arm))) }
{
    match arm {
        Arm::Labels(labels, body) => match first_in_all(labels, test) {
            Some(found) => Some(found),
            None => first_in_stmt(body, test),
        },
        Arm::Otherwise(body) => first_in_stmt(body, test),
    }
}
