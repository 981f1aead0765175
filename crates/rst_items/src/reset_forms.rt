// Clocked blocks in reset form.

ghost use Rattle.std.specs.Prelude.{◌≡◌, ◌&&◌, not, cond};
ghost use Rattle.std.specs.List.{list_any};
ghost use Rattle.std.specs.Option.{option_map};
ghost use Rattle.rst_tree.specs.Trees.{plain};
ghost use Rattle.rst_tree.specs.Statements.{plain_stmt, plain_stmts};
ghost use Rattle.rst_tree.specs.Modules.{PlainModule, plain_events, plain_always};
ghost use Rattle.rst_names.specs.Tables.{is_signal_in, IsFacts};
ghost use Rattle.rst_items.specs.ResetForms.{is_level, is_rising, is_falling, is_clocked, bare_stmt, bare, named_at, condition_of, begins, names_none, is_reset_branch, are_reset_branches, reset_form_of, of_events, of_body, form_in, reset_form};
ghost use Rattle.rst_items.specs.Tables.{plain_condition, plain_form};

use rst_names::{Facts, NameTest, first_in};
use rst_outside::Name;
use rst_tree::{Always, EdgeKind, Event, Events, Expr, Stmt};
use rst_word::UnaryOp;

/// The reset of a block, the level at which it holds, and the name that the other event waits for.
#[derive(Clone, Copy)]
pub struct ResetForm<'a> {
    pub reset: &'a Name,
    pub level: bool,
    pub clock: &'a Name,
}

fn is_edge(edge: EdgeKind) -> bool
    ensures { result ≡ not (is_level edge) }
{
    !matches!(edge, EdgeKind::Level)
}

/// Whether an edge is `posedge`.
pub fn is_rising(edge: EdgeKind) -> bool
    ensures { result ≡ is_rising edge }
{
    matches!(edge, EdgeKind::Rising)
}

fn is_falling(edge: EdgeKind) -> bool
    ensures { result ≡ is_falling edge }
{
    matches!(edge, EdgeKind::Falling)
}

fn has_edge(events: &[Event]) -> bool
    ensures { result ≡ list_any (λ e. not (is_level e.edge)) events.now }
{
    for event in events {
        if is_edge(event.edge) {
            return true;
        }
    }
    false
}

/// Whether an event list has an edge. A block with one is clocked.
pub fn is_clocked(events: &Events) -> bool
    ensures { result ≡ is_clocked (plain_events events.now) }
{
    match events {
        Events::Any => false,
        Events::List(events) => has_edge(events),
    }
}

/// A statement, taken out of `begin` and `end` that hold one statement.
#[tactic(auto, using(rst_tree::proofs::Rows::statement_rows))]
pub fn bare_stmt(stmt: &Stmt) -> &Stmt
    ensures { plain_stmt result.now ≡ bare_stmt (plain_stmt stmt.now) }
{
    match stmt {
        Stmt::Block(parts) => match parts.as_slice() {
            [part] => bare_stmt(part),
            _ => stmt,
        },
        _ => stmt,
    }
}

fn bare(expr: &Expr) -> &Expr
    ensures { plain result.now ≡ bare (plain expr.now) }
{
    match expr {
        Expr::Paren(inner) => bare(inner),
        _ => expr,
    }
}

// A name and the level at which it holds.
#[derive(Clone, Copy)]
struct Condition<'a> {
    name: &'a Name,
    level: bool,
}

fn named_at(level: bool, expr: &Expr) -> Option<Condition<'_>>
    ensures { option_map plain_condition result ≡ named_at level (plain expr.now) }
{
    match expr {
        Expr::Name(name) => Some(Condition { name, level }),
        _ => None,
    }
}

// `R`, `!R` or `~R`.
fn condition_of(expr: &Expr) -> Option<Condition<'_>>
    ensures { option_map plain_condition result ≡ condition_of (plain expr.now) }
{
    let expr = bare(expr);
    match expr {
        Expr::Unary(UnaryOp::Not | UnaryOp::Invert, inner) => named_at(false, bare(inner)),
        _ => named_at(true, expr),
    }
}

fn is_edge_to(level: bool, edge: EdgeKind) -> bool
    ensures { result ≡ cond level (is_rising edge) (is_falling edge) }
{
    if level {
        is_rising(edge)
    } else {
        is_falling(edge)
    }
}

fn begins(condition: Condition, event: &Event) -> bool
    ensures { result ≡ begins (plain_condition condition.entry) event.now }
{
    event.name == *condition.name && is_edge_to(condition.level, event.edge)
}

// A signal of the module.
#[derive(Clone, Copy)]
struct IsSignal<'a, 'b>(&'b Facts<'a>);

impl NameTest for IsSignal<'_, '_> {
    ghost test = { λ t name. is_signal_in t.0.now name };

    fn passes(&self, name: &Name) -> bool {
        self.0.summary(name).signal
    }
}

fn names_no_signal(facts: &Facts, expr: &Expr) -> bool
    ensures { result ≡ names_none (is_signal_in facts.now) (plain expr.now) }
{
    first_in(expr, &IsSignal(facts)).is_none()
}

// Whether a statement consists of nonblocking sets whose right sides name no signal.
#[cycle(branch)]
#[tactic(auto, using(rst_tree::proofs::Rows::statement_rows))]
fn is_reset_branch(facts: &Facts, stmt: &Stmt) -> bool
    ensures { result ≡ is_reset_branch (is_signal_in facts.now) (plain_stmt stmt.now) }
{
    match stmt {
        Stmt::Block(parts) => are_reset_branches(facts, parts),
        Stmt::Empty => true,
        Stmt::Set(set) => !set.blocking && names_no_signal(facts, &set.value),
        _ => false,
    }
}

#[cycle(branch)]
fn are_reset_branches(facts: &Facts, parts: &[Stmt]) -> bool
    ensures { result ≡ are_reset_branches (is_signal_in facts.now) (plain_stmts parts.now) }
{
    for part in parts {
        if !is_reset_branch(facts, part) {
            return false;
        }
    }
    true
}

fn form_of<'a>(condition: Condition<'a>, other: &'a Event) -> ResetForm<'a>
    ensures { plain_form result ≡ reset_form_of (plain_condition condition.entry) other.now }
{
    ResetForm {
        reset: condition.name,
        level: condition.level,
        clock: &other.name,
    }
}

// The condition begins with one event, and the other one is a rising edge.
fn begins_beside(condition: Condition, event: &Event, other: &Event) -> bool
    ensures { result ≡ (begins (plain_condition condition.entry) event.now && is_rising other.now.edge) }
{
    begins(condition, event) && is_rising(other.edge)
}

fn of_events<'a>(condition: Condition<'a>, events: &'a [Event]) -> Option<ResetForm<'a>>
    ensures { option_map plain_form result ≡ of_events (plain_condition condition.entry) events.now }
{
    match events {
        [first, second] => {
            if begins_beside(condition, first, second) {
                Some(form_of(condition, second))
            } else if begins_beside(condition, second, first) {
                Some(form_of(condition, first))
            } else {
                None
            }
        }
        _ => None,
    }
}

// The reset form of a block with these events.
#[tactic(auto, using(rst_tree::proofs::Rows::statement_rows))]
fn of_body<'a>(facts: &Facts, events: &'a [Event], body: &'a Stmt) -> Option<ResetForm<'a>>
    ensures { option_map plain_form result ≡ of_body (is_signal_in facts.now) events.now (plain_stmt body.now) }
{
    let Stmt::If(condition, then, Some(_)) = body else {
        return None;
    };
    if !is_reset_branch(facts, then) {
        return None;
    }
    match condition_of(condition) {
        Some(condition) => of_events(condition, events),
        None => None,
    }
}

fn form_in<'a>(facts: &Facts, always: &'a Always) -> Option<ResetForm<'a>>
    ensures { option_map plain_form result ≡ form_in (is_signal_in facts.now) (plain_always always.now).events (plain_always always.now).body }
{
    match &always.events {
        Events::Any => None,
        Events::List(events) => of_body(facts, events, bare_stmt(&always.body)),
    }
}

/// The reset form of a block, if it has one.
pub fn reset_form<'a>(facts: &Facts, always: &'a Always) -> Option<ResetForm<'a>>
    ensures tables { option_map plain_form result ≡ form_in (is_signal_in facts.now) (plain_always always.now).events (plain_always always.now).body }
    ensures form { (m : PlainModule) → IsFacts m facts.now → option_map plain_form result ≡ reset_form m (plain_always always.now) }
{
    form_in(facts, always)
}
