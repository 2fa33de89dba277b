// The moves on the cells of the stored place, by the table in the lent work.
#![tactic(auto)]

ghost use Rattle.std.specs.Prelude.{◌≡◌, ℕ, List, not, ◌&&◌, eqb};
ghost use Rattle.std.specs.Prelude.{Some};
ghost use Rattle.forest.specs.Place as place;
ghost use Rattle.forest.specs.Sides as sides;
ghost use Rattle.forest.specs.Letter.{Letter};
ghost use Rattle.forest.specs.Position.{or_else};
ghost use Rattle.forest.specs.Walk.{cells_in};
ghost use Rattle.model.specs.Model.{tail, enter, inward, child, sibling, node_at, parent, root};
ghost use Rattle.model.specs.Neighbour.{is_nil, number_of, arm_of};
ghost use Rattle.side.specs.Side.{side_of};
ghost use Rattle.facts.specs.Facts.{facts_in, In};
ghost use Rattle.facts.specs.Closes.{Closes};
ghost use Rattle.place_cells.specs.Cells.{Lies};
ghost use Rattle.row_links.specs.Links.{Linkable, Linked};
ghost use Rattle.move_parts.specs.Moves.{Held};
ghost use Rattle.move_parts.specs.declared.Change.{Change};
ghost use Rattle.move_parts.specs.declared.Outcome.{Outcome};
ghost use Rattle.move_parts.specs.Change.{Decided};
ghost use Rattle.moves.specs.Arms.{arm_over, ArmUp};

use move_parts::{Change, Outcome, Reach};
use place_cells::Cell;
use rule::Rule;
use side::Side;

// Where ↑(v) = u, the L or R of u: it has a tree, with what leads there, or it is empty. Off where ↑(v) = ⊥.
#[derive(Clone, Copy)]
enum UpArm {
    HasTree(Change),
    IsEmpty,
    Off,
}

// The first or last child of a part: in its row on that side, else in its hole.
fn part_child(work: &[u8], cursor: &[u8], k: usize, side: Side, arm: u16) -> Outcome
    requires { Held work.now cursor.now k × In work.now arm }
    ensures { let cursor = cursor.entry.now in
        let work = work.entry.now in
        Decided work cursor k (Letter.child (side_of side)) result (or_else
        (enter (facts_in work) (side_of side) (place.row_of_part (side_of side)) arm (cells_in cursor k))
        (inward (facts_in work) (cells_in cursor k))) }
{
    if facts::is_empty_at(work, arm) {
        return move_parts::inward(work, cursor, k);
    }
    move_parts::row(work, k, Cell::part_row(side), arm)
}

// The first or last child of the node with rule p that k cells lead to.
pub fn child(work: &[u8], cursor: &[u8], k: usize, p: u16, side: Side) -> Outcome
    requires { Held work.now cursor.now k × In work.now p }
    ensures { let cursor = cursor.entry.now in
        let work = work.entry.now in
        Decided work cursor k (Letter.child (side_of side)) result (child (facts_in work) (side_of side) (p, (cells_in cursor k))) }
{
    match facts::rule_at(work, p) {
        Rule::Node { under, .. } => move_parts::row(work, k, Cell::NODE_ROW, under),
        Rule::Part { left, right, .. } => part_child(work, cursor, k, side, side.pick(left, right)),
        _ => Outcome::Nowhere,
    }
}

// The sibling on a side of the node that k cells lead to: document 003's function →, on the left its mirror ←, by its five cases in
// their sequence. A node is w((d, h), v) there: the spine v, its place h in the row with number d, and what lies below the row.
pub fn sibling(work: &[u8], cursor: &[u8], k: usize, p: u16, side: Side) -> Outcome
    requires { Held work.now cursor.now k }
    ensures { let cursor = cursor.entry.now in
        let work = work.entry.now in
        Decided work cursor k (Letter.sibling (side_of side)) result (sibling (facts_in work) (side_of side) (p, (cells_in cursor k))) }
{
    match up_arm(work, cursor, k, side) {
        // 1. ↑(v) = u, z(u) = a⟨LxR⟩ and ◁r(R) ≠ ⊥: w((d, h), u) ◁r(R)
        UpArm::HasTree(change) => return Outcome::Node(change),
        // 2. ↑(v) = u, z(u) = a⟨LxR⟩ and ◁r(R) = ⊥: ⊥
        UpArm::IsEmpty => return Outcome::Nowhere,
        UpArm::Off => {}
    }
    let j = place_cells::pop_run(cursor, place_cells::under(cursor, k), side);
    if let Some(above) = move_parts::above_top(work, cursor, j, side) {
        // 3. ↑(v) = ⊥, →(h) = h' ≠ ⊥ and z(h') = D: w((d, h'), Δ(D))
        return Outcome::Node(Change::Tree { keep: j, above });
    }
    if ends_at_hole(cursor, j, side) {
        // 4. ↑(v) = ⊥, →(h) = ⊥, w = w'((d', h'), v') and d = ℓ: w'((d', h'), ↓(v'))
        return move_parts::inward(work, cursor, place_cells::tail(j));
    }
    // 5. ↑(v) = ⊥, →(h) = ⊥, w = ε or d ≠ ℓ: ⊥
    Outcome::Nowhere
}

// Of the node that k cells lead to, what stands up the spine, on a side: u is the part that a run turns to, or that lies under the
// spine's opening.
fn up_arm(work: &[u8], cursor: &[u8], k: usize, side: Side) -> UpArm
    requires { Held work.now cursor.now k }
    ensures { let cursor = cursor.entry.now in
        let work = work.entry.now in
        ((p : ℕ) → ArmUp work cursor k (side_of side) (p, (cells_in cursor k)) result) }
{
    match move_parts::outward(work, cursor, k) {
        Reach::Turn { keep, above } => {
            let to = facts::toward_at(work, Side::Left, above);
            let rule = facts::last_at(work, Side::Right, to);
            match arm_of(work, rule, side) {
                Some(over) => {
                    let number = Cell::part_row(side);
                    UpArm::HasTree(Change::Beside {
                        keep,
                        above,
                        number,
                        over,
                    })
                }
                None => UpArm::IsEmpty,
            }
        }
        Reach::Kept { keep, rule } => match arm_of(work, rule, side) {
            Some(over) => {
                let number = Cell::part_row(side);
                UpArm::HasTree(Change::Row { keep, number, over })
            }
            None => UpArm::IsEmpty,
        },
        Reach::Off => UpArm::Off,
    }
}

// The representative of the L or R, on a side, of a part with a rule; none, where it has no tree, or the rule is no part's.
fn arm_of(work: &[u8], rule: u16, side: Side) -> Option<u16>
    requires { Closes work.now × In work.now rule }
    ensures { let F = facts_in work.now in
        result ≡ arm_over F (arm_of (side_of side) (F.rule rule)) }
{
    let Rule::Part { left, right, .. } = facts::rule_at(work, rule) else {
        return None;
    };
    let arm = side.pick(left, right);
    if facts::is_empty_at(work, arm) {
        return None;
    }
    Some(facts::representative_at(work, arm))
}

// Does the row whose opening, with what lies below, is j cells end at a part's hole on a side: w ≠ ε and d = ℓ?
fn ends_at_hole(cursor: &[u8], j: usize, side: Side) -> bool
    requires { Lies cursor.now j }
    ensures { let end = cells_in cursor.now j in
        result ≡ (not (is_nil (tail end)) && eqb (number_of end) (place.row_of_part (sides.other (side_of side)))) }
{
    if j <= 1 {
        return false;
    }
    let back = side.other();
    Cell::read(cursor, j).one == Cell::part_row(back)
}

// The node that k cells lead to, nowhere above the forest.
fn node_at(work: &[u8], cursor: &[u8], k: usize) -> Outcome
    requires { Held work.now cursor.now k }
    ensures { let cursor = cursor.entry.now in
        let work = work.entry.now in
        Decided work cursor k Letter.parent result (node_at (facts_in work) (cells_in cursor k)) }
{
    if k == 0 {
        return Outcome::Nowhere;
    }
    let rule = move_parts::standing(work, cursor, k);
    Outcome::Node(Change::Kept { keep: k, rule })
}

// The parent of the node that k cells lead to: the part in whose hole it stands, else the node over its row.
pub fn parent(work: &[u8], cursor: &[u8], k: usize, p: u16) -> Outcome
    requires { Held work.now cursor.now k × Linkable work.now cursor.now k
        × Linked work.now cursor.now (cells_in cursor.now k) }
    ensures { let cursor = cursor.entry.now in
        let work = work.entry.now in
        Decided work cursor k Letter.parent result (parent (facts_in work) (p, (cells_in cursor k))) }
{
    match move_parts::outward(work, cursor, k) {
        Reach::Turn { keep, above } => Outcome::Node(Change::Turn { keep, above }),
        Reach::Kept { keep, rule } => Outcome::Node(Change::Kept { keep, rule }),
        Reach::Off => node_at(
            work,
            cursor,
            place_cells::tail(row_links::row_under(work, cursor, k, place_cells::under(cursor, k))),
        ),
    }
}

// The root of the first or last tree of a rule's forest.
pub fn root(work: &[u8], r: u16) -> Outcome
    requires { Closes work.now × In work.now r }
    ensures { let work = work.entry.now in
        ((s : List ℕ) (d : place.Side) → Decided work s 0 (Letter.root d) result (root (facts_in work) d r)) }
{
    move_parts::row(work, 0, Cell::NODE_ROW, r)
}

// The node with rule p that k cells lead to, itself.
pub fn stay(k: usize, p: u16) -> Outcome
    ensures { (result ≡ Outcome.Node (Change.Kept k p))
        × ((t s : List ℕ) → Decided t s k Letter.stay result (Some (p, cells_in s k))) }
{
    Outcome::Node(Change::Kept { keep: k, rule: p })
}
