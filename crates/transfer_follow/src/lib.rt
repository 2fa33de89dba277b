// A path followed in a forest as far as each step exists (document 02, Note 12), by counts of trees, and the place stored where it stops.
#![tactic(auto)]

ghost use Rattle.std.specs.Prelude.{◌≡◌, [], ◌<◌};
ghost use Rattle.words.specs.Words.{words_at};
ghost use Rattle.forest.specs.Forest.{forest};
ghost use Rattle.forest.specs.Place.{placed_forest};
ghost use Rattle.forest.specs.Reference.{Path};
ghost use Rattle.forest.specs.Walk.{place_at, stored_cursor};
ghost use Rattle.facts.specs.Facts.{facts_in, In};
ghost use Rattle.letter_moves.specs.Standing.{rules_kept};
ghost use Rattle.transfer_path.specs.Follow.{most_place, descended};
ghost use Rattle.transfer_climb.specs.Climb.{meaning, CountedRows};
ghost use Rattle.transfer_reach.specs.Reach.{Followable};
ghost use Rattle.transfer_follow.specs.Levels.{in_row, in_part, branch_at, FoundAt, Standable, Stepped, Numbers, Descended, Ready};

use letter_arrival::Standing;
use place_cells::Cell;
use rule::Rule;

// Where a child with a number stands, if it is there: in a row with a number of a rule, behind so many of its trees; or in the hole.
#[derive(Clone, Copy)]
enum Branch {
    Row { number: u16, rule: u16, rest: u16 },
    Hole,
}

// Behind i trees of a rule's row.
fn in_row(rows: &[u8], number: u16, rule: u16, i: u16) -> Option<Branch>
    requires { CountedRows rows.now × In rows.now rule × (i < most_place) }
    ensures { result ≡ in_row (meaning rows.now) number rule i }
{
    if i < tops_rows::tops_at(rows, rule) {
        return Some(Branch::Row {
            number,
            rule,
            rest: i,
        });
    }
    None
}

// Behind i trees of a part's L, hole and R.
fn in_part(rows: &[u8], left: u16, right: u16, i: u16) -> Option<Branch>
    requires { CountedRows rows.now × In rows.now left × In rows.now right × (i < most_place) }
    ensures { result ≡ in_part (meaning rows.now) left right i }
{
    let before = tops_rows::tops_at(rows, left);
    if i < before {
        return Some(Branch::Row {
            number: Cell::LEFT_ROW,
            rule: left,
            rest: i,
        });
    }
    if i == before {
        return Some(Branch::Hole);
    }
    in_row(rows, Cell::RIGHT_ROW, right, i - before - 1)
}

// Behind i of the roots, or of the children of the node that is stood at.
fn branch_at(rows: &[u8], at: Standing, start: u16, i: u16) -> Option<Branch>
    requires { CountedRows rows.now × In rows.now at.rule × In rows.now start × (i < most_place) }
    ensures { result ≡ branch_at (meaning rows.now) (facts_in rows.now) at start i }
{
    if at.used == 0 {
        return in_row(rows, Cell::NODE_ROW, start, i);
    }
    match facts::rule_at(rows, at.rule) {
        Rule::Node { under, .. } => in_row(rows, Cell::NODE_ROW, under, i),
        Rule::Part { left, right, .. } => in_part(rows, left, right, i),
        _ => None,
    }
}

// One level down: to the root, or the child, behind i others.
fn step_down(rows: &[u8], cursor: &mut [u8], at: Standing, start: u16, i: u16) -> Option<Standing>
    requires { Standable rows.now cursor.old at start i }
    ensures { let cursor' = cursor.exit.now in
        let cursor = cursor.entry.now in
        let t = rows.now in
        ((y : Path) → FoundAt t cursor at start y → Stepped t cursor cursor' start i y result) }
{
    match branch_at(rows, at, start, i)? {
        Branch::Row { number, rule, rest } => {
            Some(transfer_reach::reach_row(rows, cursor, at.used, number, rule, rest))
        }
        Branch::Hole => Some(transfer_reach::reach_hole(rows, cursor, at.used)),
    }
}

// Down the levels of a path, the root's first, as far as each step exists: the number of cells.
fn descend(rows: &[u8], cursor: &mut [u8], start: u16, path: &[u8], levels: usize) -> usize
    requires { Followable rows.now cursor.old start × Numbers path.now levels }
    ensures { Descended rows.now cursor.old cursor.new start path.now levels result }
{
    let mut at = Standing { used: 0, rule: 0 };
    for j in 0..levels {
        let number = words::read16(path, 2 * j);
        let Some(next) = step_down(rows, cursor, at, start, number - 1) else {
            return at.used;
        };
        at = next;
    }
    at.used
}

// The path followed, and the place stored where it stops, for the start rule: word 1 of cell 0 is 0.
pub fn follow(rows: &[u8], cursor: &mut [u8], n: u16, start: u16, path: &[u8], levels: usize)
    requires { Ready rows.now cursor.old n start × Numbers path.now levels }
    ensures { let R = rules_kept rows.now in
        cursor.new ≡ stored_cursor n 0 (place_at (placed_forest R start)
        (descended (forest R start) [] (words_at path.now 0 levels))) cursor.old }
{
    let used = descend(rows, cursor, start, path, levels);
    place_store::store(cursor, used, n, 0);
}
