// The pieces of a move: what stands beside within a row or spine, the tree that is entered, the ways into a hole and out of it.
#![tactic(auto)]

ghost use Rattle.std.specs.Prelude.{◌≡◌, ℕ, List};
ghost use Rattle.std.specs.Prelude.{option_map};
ghost use Rattle.forest.specs.Place as place;
ghost use Rattle.forest.specs.Letter.{Letter};
ghost use Rattle.forest.specs.Walk.{cells_in};
ghost use Rattle.model.specs.Model.{standing, opened, continuing, inward, part_at, outward};
ghost use Rattle.side.specs.Side.{side_of};
ghost use Rattle.facts.specs.Facts.{facts_in, In};
ghost use Rattle.place_cells.specs.Cells.{run_cell};
ghost use Rattle.move_parts.specs.Moves.{Held, Turnable};
ghost use Rattle.move_parts.specs.Change.{Decided, Reached, row_outcome};

use place_cells::Cell;
use rule::Rule;
use side::Side;

// The part in whose hole a node stands, if it stands in one: a run that turns, or cells that are kept, and its rule.
#[derive(Clone, Copy)]
pub enum Reach {
    Turn { keep: usize, above: u16 },
    Kept { keep: usize, rule: u16 },
    Off,
}

// What a letter changes: the number of cells that it keeps, and what the others are made of. A run on top that turns is one step
// shorter then, with a step from the rule above its last, and the longest run back; a tree is opened by its spine, and a row with a
// number by its opening over a representative.
#[derive(Clone, Copy)]
pub enum Change {
    Kept {
        keep: usize,
        rule: u16,
    },
    Turn {
        keep: usize,
        above: u16,
    },
    Tree {
        keep: usize,
        above: u16,
    },
    Beside {
        keep: usize,
        above: u16,
        number: u16,
        over: u16,
    },
    Row {
        keep: usize,
        number: u16,
        over: u16,
    },
    Spine {
        keep: usize,
        tree: u16,
    },
}

// Where a letter leads.
#[derive(Clone, Copy)]
pub enum Outcome {
    Node(Change),
    Nowhere,
}

// The longest run from a rule to a side, none if it has no step.
pub fn run_from(work: &[u8], side: Side, a: u16) -> Option<Cell>
    requires { In work.now a }
    ensures { result ≡ run_cell (facts_in work.now) (side_of side) a }
{
    if facts::depth_at(work, side, a) == 0 {
        return None;
    }
    Some(Cell::run(side, a, facts::last_at(work, side, a)))
}

// The rule that a place stands at.
pub fn standing(work: &[u8], cursor: &[u8], k: usize) -> u16
    requires { Held work.now cursor.now k }
    ensures { result ≡ standing (facts_in work.now) (cells_in cursor.now k) }
{
    if k == 0 {
        return 0;
    }
    let top = Cell::read(cursor, k);
    if top.kind == Cell::SPINE {
        return facts::outer_at(work, top.one);
    }
    top.two
}

// The rule at which the run on top turns to a side, where no run to that side is on top: the rule above its last, if it turns.
pub fn above_top(work: &[u8], cursor: &[u8], k: usize, side: Side) -> Option<u16>
    requires { Held work.now cursor.now k }
    ensures { Turnable work.now cursor.now k (side_of side) result }
{
    if k == 0 {
        return None;
    }
    let top = Cell::read(cursor, k);
    let back = side.other();
    if top.kind == Cell::run_kind(back) {
        return Some(facts::one_above(work, back, top.one, top.two));
    }
    None
}

// The root of the tree that the spine opened on top of j cells continues in, opened on k cells.
fn continued(work: &[u8], cursor: &[u8], j: usize, k: usize) -> Outcome
    requires { Held work.now cursor.now j }
    ensures { let cursor = cursor.entry.now in
        let work = work.entry.now in
        ((d : place.Side) → Decided work cursor k (Letter.child d) result (option_map (λ (c : ℕ). opened (facts_in work) c (cells_in cursor k))
        (continuing (facts_in work) (cells_in cursor j)))) }
{
    if j == 0 {
        return Outcome::Nowhere;
    }
    let top = Cell::read(cursor, j);
    if top.kind != Cell::SPINE {
        return Outcome::Nowhere;
    }
    let Rule::Fill { inner, .. } = facts::rule_at(work, top.one) else {
        return Outcome::Nowhere;
    };
    Outcome::Node(Change::Spine {
        keep: k,
        tree: inner,
    })
}

// The root of the tree in the hole of the part that k cells lead to.
pub fn inward(work: &[u8], cursor: &[u8], k: usize) -> Outcome
    requires { Held work.now cursor.now k }
    ensures { let cursor = cursor.entry.now in
        let work = work.entry.now in
        ((d : place.Side) → Decided work cursor k (Letter.child d) result (inward (facts_in work) (cells_in cursor k))) }
{
    let j = place_cells::pop_run(cursor, k, Side::Right);
    if let Some(above) = above_top(work, cursor, j, Side::Right) {
        return Outcome::Node(Change::Turn { keep: j, above });
    }
    continued(work, cursor, j, k)
}

// The part that k cells lead to, where one stands there.
fn part_at(work: &[u8], cursor: &[u8], k: usize) -> Reach
    requires { Held work.now cursor.now k }
    ensures { let cursor = cursor.entry.now in
        let work = work.entry.now in
        Reached work cursor k result (part_at (facts_in work) (cells_in cursor k)) }
{
    let at = standing(work, cursor, k);
    let Rule::Part { .. } = facts::rule_at(work, at) else {
        return Reach::Off;
    };
    Reach::Kept { keep: k, rule: at }
}

// The part in whose hole the node that k cells lead to stands.
pub fn outward(work: &[u8], cursor: &[u8], k: usize) -> Reach
    requires { Held work.now cursor.now k }
    ensures { let cursor = cursor.entry.now in
        let work = work.entry.now in
        Reached work cursor k result (outward (facts_in work) (cells_in cursor k)) }
{
    let j = place_cells::pop_run(cursor, k, Side::Left);
    if let Some(above) = above_top(work, cursor, j, Side::Left) {
        return Reach::Turn { keep: j, above };
    }
    part_at(work, cursor, place_cells::tail(j))
}

// The row of a rule entered with a number on k cells.
pub fn row(work: &[u8], k: usize, number: u16, a: u16) -> Outcome
    requires { In work.now a }
    ensures { result ≡ row_outcome (facts_in work.now) k number a }
{
    if facts::is_empty_at(work, a) {
        return Outcome::Nowhere;
    }
    let over = facts::representative_at(work, a);
    Outcome::Node(Change::Row {
        keep: k,
        number,
        over,
    })
}
