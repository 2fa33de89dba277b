// What each letter comes to (document 01, "Letters"): where it leads is decided on the cells as they are, nowhere is dealt with first,
// and then the cells are written.
#![tactic(auto)]

ghost use Rattle.std.specs.Prelude.{◌≡◌};
ghost use Rattle.forest.specs.Letter as spec;
ghost use Rattle.forest.specs.Walk.{nowhere};
ghost use Rattle.side.specs.Side.{side_of};
ghost use Rattle.letter.specs.declared.Letter.{Letter};
ghost use Rattle.letter.specs.Letter.{move_of};
ghost use Rattle.letter_moves.specs.Standing.{Stands, Stepped};

use letter::Letter;
use letter_arrival::{Landing, Standing};
use move_parts::Outcome;
use side::Side;

// What a letter that leads nowhere comes to: the place is kept.
fn kept(at: Standing) -> Landing
    ensures { result ≡ record { at = at; answer = nowhere } }
{
    Landing {
        at,
        answer: Letter::NOWHERE,
    }
}

// What a and z come to from where the walk stands, r being the walked rule: to the root of the first or last tree of its forest.
pub fn to_root(rows: &[u8], cursor: &mut [u8], at: Standing, r: u16, side: Side) -> Landing
    requires { Stands r rows.now cursor.old at.used at.rule }
    ensures { let cursor' = cursor.exit.now in
        let cursor = cursor.entry.now in
        Stepped r rows.now (spec.Letter.root (side_of side)) at.used at.rule cursor cursor' result }
{
    let Outcome::Node(change) = moves::root(rows, r) else {
        return kept(at);
    };
    letter_arrival::arrive_root(rows, cursor, at.used, change, side)
}

// What f and l come to from where the walk stands, r being the walked rule: to the first or last child, nowhere above the forest.
pub fn to_child(rows: &[u8], cursor: &mut [u8], at: Standing, r: u16, side: Side) -> Landing
    requires { Stands r rows.now cursor.old at.used at.rule }
    ensures { let cursor' = cursor.exit.now in
        let cursor = cursor.entry.now in
        Stepped r rows.now (spec.Letter.child (side_of side)) at.used at.rule cursor cursor' result }
{
    if at.used == 0 {
        return kept(at);
    }
    let Outcome::Node(change) = moves::child(rows, cursor, at.used, at.rule, side) else {
        return kept(at);
    };
    letter_arrival::arrive_child(rows, cursor, at.used, change, side)
}

// What p and n come to from where the walk stands, r being the walked rule: to the sibling on a side, nowhere above the forest.
pub fn to_sibling(rows: &[u8], cursor: &mut [u8], at: Standing, r: u16, side: Side) -> Landing
    requires { Stands r rows.now cursor.old at.used at.rule }
    ensures { let cursor' = cursor.exit.now in
        let cursor = cursor.entry.now in
        Stepped r rows.now (spec.Letter.sibling (side_of side)) at.used at.rule cursor cursor' result }
{
    if at.used == 0 {
        return kept(at);
    }
    let Outcome::Node(change) = moves::sibling(rows, cursor, at.used, at.rule, side) else {
        return kept(at);
    };
    letter_arrival::arrive_sibling(rows, cursor, at.used, change, side)
}

// What u comes to from where the walk stands, r being the walked rule: to the parent.
pub fn to_parent(rows: &[u8], cursor: &mut [u8], at: Standing, r: u16) -> Landing
    requires { Stands r rows.now cursor.old at.used at.rule }
    ensures { let cursor' = cursor.exit.now in
        let cursor = cursor.entry.now in
        Stepped r rows.now (move_of Letter.U) at.used at.rule cursor cursor' result }
{
    if at.used == 0 {
        return kept(at);
    }
    let Outcome::Node(change) = moves::parent(rows, cursor, at.used, at.rule) else {
        return kept(at);
    };
    letter_arrival::arrive_parent(rows, cursor, at.used, change)
}

// What s comes to from where the walk stands, r being the walked rule: to the node itself.
pub fn to_same(rows: &[u8], cursor: &mut [u8], at: Standing, r: u16) -> Landing
    requires { Stands r rows.now cursor.old at.used at.rule }
    ensures { let cursor' = cursor.exit.now in
        let cursor = cursor.entry.now in
        Stepped r rows.now (move_of Letter.S) at.used at.rule cursor cursor' result }
{
    if at.used == 0 {
        return kept(at);
    }
    let Outcome::Node(change) = moves::stay(at.used, at.rule) else {
        return kept(at);
    };
    letter_arrival::arrive_same(rows, cursor, at.used, change)
}
