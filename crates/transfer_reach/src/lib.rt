// The node with a number in a row (document 02, Note 12), reached by counts of trees: step by step down the row's pairs, and its tree opened.
#![tactic(auto)]

ghost use Rattle.std.specs.Prelude.{ℕ, ◌+◌, ◌<◌};
ghost use Rattle.forest.specs.Place.{step};
ghost use Rattle.forest.specs.Walk.{cells_in};
ghost use Rattle.side.specs.Side.{side_of};
ghost use Rattle.facts.specs.Facts.{facts_in, In};
ghost use Rattle.place_cells.specs.Cells.{Lies};
ghost use Rattle.place_cells.specs.Changes.{Put};
ghost use Rattle.move_parts.specs.Change.{change_node};
ghost use Rattle.letter_arrival.specs.Arrived.{Stood};
ghost use Rattle.transfer_path.specs.Follow.{most_place};
ghost use Rattle.transfer_path.specs.Spot.{Spot};
ghost use Rattle.transfer_climb.specs.Climb.{CountedRows};
ghost use Rattle.transfer_reach.specs.Reach.{Seeking, Somewhere, Turns, Reached, RowAt, SomeRow, HoleAt, SomeHole, inward_letter, Writable};

use letter_arrival::Standing;
use move_parts::{Change, Outcome};
use place_cells::Cell;
use rule::Rule;
use side::Side;

// Where a tree of a rule stands, unless the rule is the tree's: on a side, behind so many trees of that side's rule.
#[derive(Clone, Copy)]
struct Turn {
    side: Side,
    to: u16,
    rest: u16,
}

// One step to a side on top of k cells, from a rule to a rule: the run on top grows, or one begins.
fn step_cell(cursor: &mut [u8], k: usize, side: Side, from: u16, to: u16) -> usize
    requires { (0 < k) × Lies cursor.old (k + 1) }
    ensures { let cursor' = cursor.exit.now in
        let cursor = cursor.entry.now in
        Put (step (side_of side) from to (cells_in cursor k)) cursor cursor' result }
{
    let top = Cell::read(cursor, k);
    if top.kind == Cell::run_kind(side) {
        top.grown(to).write(cursor, k);
        return k;
    }
    place_cells::push(cursor, k, Some(Cell::run(side, from, to)))
}

// Where the tree behind i trees of a rule stands.
fn turn_at(rows: &[u8], at: u16, i: u16) -> Option<Turn>
    requires { CountedRows rows.now × In rows.now at × (i < most_place) }
    ensures { Turns rows.now at i result }
{
    match facts::rule_at(rows, at) {
        Rule::Pair { first, second } => {
            let tops = tops_rows::tops_at(rows, first);
            if i < tops {
                let to = facts::representative_at(rows, first);
                return Some(Turn {
                    side: Side::Left,
                    to,
                    rest: i,
                });
            }
            let to = facts::representative_at(rows, second);
            Some(Turn {
                side: Side::Right,
                to,
                rest: i - tops,
            })
        }
        _ => None,
    }
}

// The root of the tree behind i trees of a rule that stands on k cells.
fn seek(rows: &[u8], cursor: &mut [u8], k: usize, a: u16, i: u16) -> Standing
    requires { Somewhere rows.now cursor.old k a i }
    ensures { let cursor' = cursor.exit.now in
        let cursor = cursor.entry.now in
        let t = rows.now in
        ((start : ℕ) (x : Spot) → Seeking t cursor k a i start x → Reached t cursor cursor' start x result) }
{
    let mut used = k;
    let mut at = a;
    let mut before = i;
    while let Some(Turn { side, to, rest }) = turn_at(rows, at, before) {
        used = step_cell(cursor, used, side, at, to);
        at = to;
        before = rest;
    }
    letter_arrival::put_tree(rows, cursor, used, at)
}

// The root of the tree behind i trees of a rule, whose row is opened with a number on k cells.
pub fn reach_row(
    rows: &[u8],
    cursor: &mut [u8],
    k: usize,
    number: u16,
    rule: u16,
    i: u16,
) -> Standing
    requires { SomeRow rows.now cursor.old k number rule i }
    ensures { let cursor' = cursor.exit.now in
        let cursor = cursor.entry.now in
        let t = rows.now in
        ((start : ℕ) (x : Spot) → RowAt t cursor k number rule i start x → Reached t cursor cursor' start x result) }
{
    let over = facts::representative_at(rows, rule);
    let used = place_cells::push(cursor, k, Some(Cell::row(number, over)));
    seek(rows, cursor, used, over, i)
}

// The cells of the root of the tree in a hole, by its change.
fn put_change(rows: &[u8], cursor: &mut [u8], change: Change) -> Standing
    requires { Writable rows.now cursor.old change }
    ensures { let cursor' = cursor.exit.now in
        let cursor = cursor.entry.now in
        Stood (change_node (facts_in rows.now) inward_letter change cursor) cursor cursor' result }
{
    match change {
        Change::Turn { keep, above } => {
            letter_arrival::put_turn(rows, cursor, keep, Side::Right, above)
        }
        Change::Row { keep, number, over } => {
            letter_arrival::put_row(rows, cursor, keep, Side::Left, number, over)
        }
        Change::Spine { keep, tree } => letter_arrival::put_tree(rows, cursor, keep, tree),
        _ => Standing { used: 0, rule: 0 },
    }
}

// The root of the tree in the hole of the part that k cells lead to.
pub fn reach_hole(rows: &[u8], cursor: &mut [u8], k: usize) -> Standing
    requires { SomeHole rows.now cursor.old k }
    ensures { let cursor' = cursor.exit.now in
        let cursor = cursor.entry.now in
        let t = rows.now in
        ((start : ℕ) (x : Spot) → HoleAt t cursor k start x → Reached t cursor cursor' start x result) }
{
    let Outcome::Node(change) = move_parts::inward(rows, cursor, k) else {
        return Standing { used: 0, rule: 0 };
    };
    put_change(rows, cursor, change)
}
