// The test of stored cells: one pass from cell 1 up, by the table in the lent work.
#![tactic(auto)]

ghost use Rattle.std.specs.Prelude.{◌≡◌};
ghost use Rattle.forest.specs.Walk.{cells_in};
ghost use Rattle.model.specs.Model.{inner_of};
ghost use Rattle.model.specs.Stored.{form_of, row_under, row_in, after_row, is_that, spine_at, kept_by, after_run, next, is_node, ends_well, accepts};
ghost use Rattle.side.specs.Side.{side_of};
ghost use Rattle.facts.specs.Facts.{facts_in, In, Climbs};
ghost use Rattle.facts.specs.Closes.{Closes};
ghost use Rattle.place_cells.specs.Cells.{words, Lies};
ghost use Rattle.place_check.specs.States.{state_of, MaybeHas, StateHas, after_spine};

use place_cells::Cell;
use rule::Rule;
use side::Side;
use work_rows::Row;

// What the cells so far lead to: above the forest; or a rule, the kind of the last cell, and the tree that the spine opens if the
// rule is its last part; or wrong.
#[derive(Clone, Copy)]
enum State {
    Above,
    At {
        rule: u16,
        kind: u16,
        inner: Option<u16>,
    },
    Wrong,
}

// The rule whose row a number opens under a node, with the kind of the last cell.
fn row_under(rule: Rule, kind: u16, number: u16) -> Option<u16>
    ensures { result ≡ row_under rule kind number }
{
    match rule {
        Rule::Node { under, .. } => {
            if (kind == Cell::SPINE) & (number == Cell::NODE_ROW) {
                return Some(under);
            }
            None
        }
        Rule::Part { left, right, .. } => {
            if number == Cell::LEFT_ROW {
                return Some(left);
            }
            if number == Cell::RIGHT_ROW {
                return Some(right);
            }
            None
        }
        _ => None,
    }
}

// The same in a state; r is the walked rule.
fn row_in(work: &[u8], r: u16, state: State, number: u16) -> Option<u16>
    requires { StateHas (In work.now) (state_of state) }
    ensures { result ≡ row_in (facts_in work.now) r (state_of state) number }
{
    match state {
        State::Above => {
            if number == Cell::NODE_ROW {
                return Some(r);
            }
            None
        }
        State::At { rule: p, kind, .. } => row_under(facts::rule_at(work, p), kind, number),
        State::Wrong => None,
    }
}

// After the opening of a row over rule v, where the row is that of a rule.
fn after_row(work: &[u8], row: Option<u16>, v: u16) -> State
    requires { MaybeHas (In work.now) row }
    ensures { state_of result ≡ after_row (facts_in work.now) row v }
{
    let Some(x) = row else {
        return State::Wrong;
    };
    if v == facts::representative_at(work, x) {
        return State::At {
            rule: v,
            kind: Cell::ROW,
            inner: None,
        };
    }
    State::Wrong
}

// Whether a tree is the one that may open.
fn is_that(inner: Option<u16>, a: u16) -> bool
    ensures { result ≡ is_that inner a }
{
    let Some(c) = inner else {
        return false;
    };
    c == a
}

// Whether the spine of tree a may open at rule p.
fn spine_at(rule: Rule, p: u16, kind: u16, inner: Option<u16>, a: u16) -> bool
    ensures { result ≡ spine_at rule p kind inner a }
{
    match rule {
        Rule::Node { .. } | Rule::Fill { .. } => (kind != Cell::SPINE) & (p == a),
        Rule::Part { .. } => is_that(inner, a),
        _ => false,
    }
}

// The C that a fill's last hole continues in.
fn inner_of(work: &[u8], a: u16) -> Option<u16>
    requires { In work.now a }
    ensures { result ≡ inner_of ((facts_in work.now).rule a) }
{
    let Rule::Fill { inner, .. } = facts::rule_at(work, a) else {
        return None;
    };
    Some(inner)
}

// After the opening of the spine of tree a.
fn after_spine(work: &[u8], state: State, a: u16) -> State
    requires { StateHas (In work.now) (state_of state) }
    ensures { state_of result ≡ after_spine (facts_in work.now) (state_of state) a }
{
    let State::At {
        rule: p,
        kind,
        inner,
    } = state
    else {
        return State::Wrong;
    };
    if spine_at(facts::rule_at(work, p), p, kind, inner, a) {
        return State::At {
            rule: facts::outer_at(work, a),
            kind: Cell::SPINE,
            inner: inner_of(work, a),
        };
    }
    State::Wrong
}

// What a run to a side leaves of the tree that may open.
fn kept_by(side: Side, inner: Option<u16>) -> Option<u16>
    ensures { result ≡ kept_by (side_of side) inner }
{
    match side {
        Side::Left => None,
        Side::Right => inner,
    }
}

// After a run to a side from rule a to rule b.
fn after_run(work: &[u8], state: State, side: Side, a: u16, b: u16) -> State
    requires { Closes work.now × Climbs work.now × StateHas (In work.now) (state_of state) }
    ensures { state_of result ≡ after_run (facts_in work.now) (state_of state) (side_of side) a b }
{
    let State::At {
        rule: p,
        kind,
        inner,
    } = state
    else {
        return State::Wrong;
    };
    if kind == Cell::run_kind(side) {
        return State::Wrong;
    }
    if p != a {
        return State::Wrong;
    }
    if work.len() / Row::LENGTH <= b as usize {
        return State::Wrong;
    }
    if facts::reaches(work, side, a, b) {
        return State::At {
            rule: b,
            kind: Cell::run_kind(side),
            inner: kept_by(side, inner),
        };
    }
    State::Wrong
}

// After a cell.
fn next(work: &[u8], r: u16, state: State, cell: Cell) -> State
    requires { Closes work.now × Climbs work.now × In work.now r × StateHas (In work.now) (state_of state) }
    ensures { state_of result ≡ next (facts_in work.now) r (state_of state) (form_of (words cell)) }
{
    if cell.three != 0 {
        return State::Wrong;
    }
    if cell.kind == Cell::ROW {
        return after_row(work, row_in(work, r, state, cell.one), cell.two);
    }
    if cell.kind == Cell::SPINE {
        if cell.two == 0 {
            return after_spine(work, state, cell.one);
        }
        return State::Wrong;
    }
    if cell.kind == Cell::LEFT {
        return after_run(work, state, Side::Left, cell.one, cell.two);
    }
    if cell.kind == Cell::RIGHT {
        return after_run(work, state, Side::Right, cell.one, cell.two);
    }
    State::Wrong
}

// Whether a rule is a node's, with the kind of the last cell.
fn is_node(rule: Rule, kind: u16) -> bool
    ensures { result ≡ is_node rule kind }
{
    match rule {
        Rule::Node { .. } => kind == Cell::SPINE,
        Rule::Part { .. } => true,
        _ => false,
    }
}

// Whether the cells lead to a node.
fn ends_well(work: &[u8], state: State) -> bool
    requires { StateHas (In work.now) (state_of state) }
    ensures { result ≡ ends_well (facts_in work.now) (state_of state) }
{
    let State::At { rule: p, kind, .. } = state else {
        return false;
    };
    is_node(facts::rule_at(work, p), kind)
}

// Whether cells 1 to k are those of a node of rule r's forest: one pass from cell 1 up.
pub fn accepts(work: &[u8], cursor: &[u8], k: usize, r: u16) -> bool
    requires { Closes work.now × Climbs work.now × In work.now r × Lies cursor.now k }
    ensures { result ≡ accepts (facts_in work.now) r (cells_in cursor.now k) }
{
    let mut state = State::Above;
    for i in 0..k {
        state = next(work, r, state, Cell::read(cursor, i + 1));
    }
    ends_well(work, state)
}
