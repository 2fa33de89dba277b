// One letter from a place: the state of a walk, and a function for each letter (document 01, "Letters"). The eight stay apart, each lent
// the state by `&mut`: document 01 names that form ("Language forms and where they go").
#![tactic(auto)]

ghost use Rattle.letter.specs.Letter.{move_of};
ghost use Rattle.letter_moves.specs.Standing.{Stands, Stepped};
ghost use Rattle.letter_step.specs.Landed.{landed};

use letter::Letter;
use letter_arrival::{Landing, Standing};
use side::Side;

// a: the root of the first tree, or the place is kept.
#[tactic(auto, unfolding(side::specs::Side::side_of, letter::specs::Letter::move_of))]
fn first_root(rows: &[u8], cursor: &mut [u8], at: &mut Standing, r: u16) -> u32
    requires { Stands r rows.now cursor.old at.old.used at.old.rule }
    ensures { let cursor' = cursor.exit.now in
        let at' = at.exit.now in
        let rows = rows.entry.now in
        let at = at.entry.now in
        let cursor = cursor.entry.now in
        Stepped r rows (move_of Letter.A) at.used at.rule cursor cursor' (landed at' result) }
{
    let landing = letter_moves::to_root(rows, cursor, *at, r, Side::Left);
    *at = landing.at;
    landing.answer
}

// z: the root of the last tree, or the place is kept.
#[tactic(auto, unfolding(side::specs::Side::side_of, letter::specs::Letter::move_of))]
fn last_root(rows: &[u8], cursor: &mut [u8], at: &mut Standing, r: u16) -> u32
    requires { Stands r rows.now cursor.old at.old.used at.old.rule }
    ensures { let cursor' = cursor.exit.now in
        let at' = at.exit.now in
        let rows = rows.entry.now in
        let at = at.entry.now in
        let cursor = cursor.entry.now in
        Stepped r rows (move_of Letter.Z) at.used at.rule cursor cursor' (landed at' result) }
{
    let landing = letter_moves::to_root(rows, cursor, *at, r, Side::Right);
    *at = landing.at;
    landing.answer
}

// f: the first child, or the place is kept.
#[tactic(auto, unfolding(side::specs::Side::side_of, letter::specs::Letter::move_of))]
fn first_child(rows: &[u8], cursor: &mut [u8], at: &mut Standing, r: u16) -> u32
    requires { Stands r rows.now cursor.old at.old.used at.old.rule }
    ensures { let cursor' = cursor.exit.now in
        let at' = at.exit.now in
        let rows = rows.entry.now in
        let at = at.entry.now in
        let cursor = cursor.entry.now in
        Stepped r rows (move_of Letter.F) at.used at.rule cursor cursor' (landed at' result) }
{
    let landing = letter_moves::to_child(rows, cursor, *at, r, Side::Left);
    *at = landing.at;
    landing.answer
}

// l: the last child, or the place is kept.
#[tactic(auto, unfolding(side::specs::Side::side_of, letter::specs::Letter::move_of))]
fn last_child(rows: &[u8], cursor: &mut [u8], at: &mut Standing, r: u16) -> u32
    requires { Stands r rows.now cursor.old at.old.used at.old.rule }
    ensures { let cursor' = cursor.exit.now in
        let at' = at.exit.now in
        let rows = rows.entry.now in
        let at = at.entry.now in
        let cursor = cursor.entry.now in
        Stepped r rows (move_of Letter.L) at.used at.rule cursor cursor' (landed at' result) }
{
    let landing = letter_moves::to_child(rows, cursor, *at, r, Side::Right);
    *at = landing.at;
    landing.answer
}

// n: the next sibling, or the place is kept.
#[tactic(auto, unfolding(side::specs::Side::side_of, letter::specs::Letter::move_of))]
fn next_sibling(rows: &[u8], cursor: &mut [u8], at: &mut Standing, r: u16) -> u32
    requires { Stands r rows.now cursor.old at.old.used at.old.rule }
    ensures { let cursor' = cursor.exit.now in
        let at' = at.exit.now in
        let rows = rows.entry.now in
        let at = at.entry.now in
        let cursor = cursor.entry.now in
        Stepped r rows (move_of Letter.N) at.used at.rule cursor cursor' (landed at' result) }
{
    let landing = letter_moves::to_sibling(rows, cursor, *at, r, Side::Right);
    *at = landing.at;
    landing.answer
}

// p: the previous sibling, or the place is kept.
#[tactic(auto, unfolding(side::specs::Side::side_of, letter::specs::Letter::move_of))]
fn previous_sibling(rows: &[u8], cursor: &mut [u8], at: &mut Standing, r: u16) -> u32
    requires { Stands r rows.now cursor.old at.old.used at.old.rule }
    ensures { let cursor' = cursor.exit.now in
        let at' = at.exit.now in
        let rows = rows.entry.now in
        let at = at.entry.now in
        let cursor = cursor.entry.now in
        Stepped r rows (move_of Letter.P) at.used at.rule cursor cursor' (landed at' result) }
{
    let landing = letter_moves::to_sibling(rows, cursor, *at, r, Side::Left);
    *at = landing.at;
    landing.answer
}

// u: the parent, or the place is kept.
fn parent(rows: &[u8], cursor: &mut [u8], at: &mut Standing, r: u16) -> u32
    requires { Stands r rows.now cursor.old at.old.used at.old.rule }
    ensures { let cursor' = cursor.exit.now in
        let at' = at.exit.now in
        let rows = rows.entry.now in
        let at = at.entry.now in
        let cursor = cursor.entry.now in
        Stepped r rows (move_of Letter.U) at.used at.rule cursor cursor' (landed at' result) }
{
    let landing = letter_moves::to_parent(rows, cursor, *at, r);
    *at = landing.at;
    landing.answer
}

// s: the node itself, or the place is kept.
fn same(rows: &[u8], cursor: &mut [u8], at: &mut Standing, r: u16) -> u32
    requires { Stands r rows.now cursor.old at.old.used at.old.rule }
    ensures { let cursor' = cursor.exit.now in
        let at' = at.exit.now in
        let rows = rows.entry.now in
        let at = at.entry.now in
        let cursor = cursor.entry.now in
        Stepped r rows (move_of Letter.S) at.used at.rule cursor cursor' (landed at' result) }
{
    let landing = letter_moves::to_same(rows, cursor, *at, r);
    *at = landing.at;
    landing.answer
}

// A letter from a place: decided on the cells as they are, and then written.
pub fn step(rows: &[u8], cursor: &mut [u8], from: Standing, r: u16, letter: Letter) -> Landing
    requires { Stands r rows.now cursor.old from.used from.rule }
    ensures { Stepped r rows.now (move_of letter) from.used from.rule cursor.old
        cursor.new result }
{
    let mut at = from;
    let answer = match letter {
        Letter::A => first_root(rows, cursor, &mut at, r),
        Letter::Z => last_root(rows, cursor, &mut at, r),
        Letter::F => first_child(rows, cursor, &mut at, r),
        Letter::L => last_child(rows, cursor, &mut at, r),
        Letter::N => next_sibling(rows, cursor, &mut at, r),
        Letter::P => previous_sibling(rows, cursor, &mut at, r),
        Letter::U => parent(rows, cursor, &mut at, r),
        Letter::S => same(rows, cursor, &mut at, r),
    };
    Landing { at, answer }
}
