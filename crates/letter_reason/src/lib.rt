// Why a letter moves or doesn't from a place (document 02, Note 11), decided on the cells as they are. Nothing is written.
#![tactic(auto)]

ghost use Rattle.std.specs.Prelude.{◌≡◌, ◌<◌};
ghost use Rattle.forest.specs.Letter as spec;
ghost use Rattle.forest.specs.Walk.{cells_in};
ghost use Rattle.model.specs.Model.{child, sibling, parent, below_row};
ghost use Rattle.model.specs.Neighbour.{is_nil};
ghost use Rattle.model.specs.Walk.{move};
ghost use Rattle.side.specs.Side.{side_of};
ghost use Rattle.letter.specs.Letter.{move_of};
ghost use Rattle.facts.specs.Facts.{facts_in, In};
ghost use Rattle.place_cells.specs.Cells.{Lies};
ghost use Rattle.move_parts.specs.Moves.{Held};
ghost use Rattle.letter_moves.specs.Standing.{Placed};
ghost use Rattle.reasons.specs.Reason.{end_reason, reason_above};
ghost use Rattle.reasons.specs.Decided.{is_found, decided_at, decided};

use letter::Letter;
use letter_arrival::Standing;
use move_parts::{Outcome, Reach};
use place_cells::Cell;
use reasons::Reason;
use side::Side;

// The reason of n on the last of its siblings, and of p on the first.
#[tactic(auto, unfolding(side::specs::Side::side_of, reasons::specs::Reason::end_reason))]
fn end_reason(side: Side) -> Reason
    ensures { result ≡ end_reason (side_of side) }
{
    match side {
        Side::Left => Reason::FirstSibling,
        Side::Right => Reason::LastSibling,
    }
}

// The reason of f or l at the node where the walk stands.
fn child_reason(rows: &[u8], cursor: &[u8], at: Standing, side: Side) -> Reason
    requires { Held rows.now cursor.now at.used × In rows.now at.rule }
    ensures { let cells = cells_in cursor.now at.used in
        let leads = is_found (child (facts_in rows.now) (side_of side) (at.rule, cells)) in
        result ≡ decided_at (spec.Letter.child (side_of side)) leads }
{
    match moves::child(rows, cursor, at.used, at.rule, side) {
        Outcome::Node(_) => Reason::Moves,
        Outcome::Nowhere => Reason::NoChildren,
    }
}

// The reason of n or p at the node where the walk stands.
fn sibling_reason(rows: &[u8], cursor: &[u8], at: Standing, side: Side) -> Reason
    requires { Held rows.now cursor.now at.used }
    ensures { let cells = cells_in cursor.now at.used in
        let leads = is_found (sibling (facts_in rows.now) (side_of side) (at.rule, cells)) in
        result ≡ decided_at (spec.Letter.sibling (side_of side)) leads }
{
    match moves::sibling(rows, cursor, at.used, at.rule, side) {
        Outcome::Node(_) => Reason::Moves,
        Outcome::Nowhere => end_reason(side),
    }
}

// The number of cells below the opening of the row that t cells end in.
fn below_row(cursor: &[u8], t: usize) -> usize
    requires { Lies cursor.now t }
    ensures { let cursor = cursor.entry.now in
        cells_in cursor result ≡ below_row (cells_in cursor t) }
{
    for below in (0..t).rev() {
        if Cell::read(cursor, below + 1).kind == Cell::ROW {
            return below;
        }
    }
    0
}

// The reason of u at the node where the walk stands: the part in whose hole it stands is its parent, else the node over its row.
fn parent_reason(rows: &[u8], cursor: &[u8], at: Standing) -> Reason
    requires { Held rows.now cursor.now at.used }
    ensures { let cells = cells_in cursor.now at.used in
        let leads = is_found (parent (facts_in rows.now) (at.rule, cells)) in
        result ≡ decided_at spec.Letter.parent leads }
{
    match move_parts::outward(rows, cursor, at.used) {
        Reach::Turn { .. } => Reason::Moves,
        Reach::Kept { .. } => Reason::Moves,
        Reach::Off => {
            if below_row(cursor, place_cells::under(cursor, at.used)) == 0 {
                return Reason::Root;
            }
            Reason::Moves
        }
    }
}

// The reason of a letter above a forest with trees.
fn above_reason(letter: Letter) -> Reason
    ensures { result ≡ reason_above (move_of letter) }
{
    match letter {
        Letter::A => Reason::Moves,
        Letter::Z => Reason::Moves,
        _ => Reason::Above,
    }
}

// The reason of a letter at the node where the walk stands, r being the walked rule.
fn node_reason(rows: &[u8], cursor: &[u8], at: Standing, r: u16, letter: Letter) -> Reason
    requires { Placed r rows.now cursor.now at.used at.rule × (0 < at.used) }
    ensures { let cells = cells_in cursor.now at.used in
        let leads = is_found (move (facts_in rows.now) r (move_of letter) (at.rule, cells)) in
        result ≡ decided_at (move_of letter) leads }
{
    match letter {
        Letter::F => child_reason(rows, cursor, at, Side::Left),
        Letter::L => child_reason(rows, cursor, at, Side::Right),
        Letter::N => sibling_reason(rows, cursor, at, Side::Right),
        Letter::P => sibling_reason(rows, cursor, at, Side::Left),
        Letter::U => parent_reason(rows, cursor, at),
        Letter::A => Reason::Moves,
        Letter::Z => Reason::Moves,
        Letter::S => Reason::Moves,
    }
}

// The reason of a letter from where the walk stands, r being the walked rule: first whether its forest has trees, then whether the place is
// above it.
pub fn reason_at(rows: &[u8], cursor: &[u8], at: Standing, r: u16, letter: Letter) -> Reason
    requires { Placed r rows.now cursor.now at.used at.rule }
    ensures { let F = facts_in rows.now in
        let cells = cells_in cursor.now at.used in
        let leads = is_found (move F r (move_of letter) (at.rule, cells)) in
        result ≡ decided (F.is_empty r) (is_nil cells) (move_of letter) leads }
{
    if facts::is_empty_at(rows, r) {
        return Reason::NoTrees;
    }
    if at.used == 0 {
        return above_reason(letter);
    }
    node_reason(rows, cursor, at, r, letter)
}
