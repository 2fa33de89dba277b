// The path of the node that a place's cells lead to (document 02, Note 12), read off the cells by counts of trees; nothing is written but the path.
#![tactic(auto)]

ghost use Rattle.std.specs.Prelude.{◌≡◌, List, ℕ, ◌+◌, ◌-◌, ◌<◌, ◌≤◌, min, length, get_or};
ghost use Rattle.forest.specs.Good.{Sort, Good};
ghost use Rattle.forest.specs.Walk.{cell_at, cells_in};
ghost use Rattle.facts.specs.Facts.{facts_in, In};
ghost use Rattle.move_parts.specs.Moves.{Held};
ghost use Rattle.transfer_path.specs.Follow.{most_place};
ghost use Rattle.transfer_path.specs.Spot.{path_to, through, ahead};
ghost use Rattle.transfer_path.specs.CellSpot.{left_tops, row_before, spine_spot, step_spot, right_steps, steps_between, cell_spot, path_in};
ghost use Rattle.transfer_climb.specs.Climb.{path_length, meaning, CountedRows, spot_at, levels_in, Ready, LevelPut, Took, PartAt, GoesDown, Traces};

use place_cells::Cell;
use rule::Rule;
use side::Side;

// How far the cells up to one lead: the trees before the spot among its siblings, and the levels above it, whose numbers are written. Where it
// is too far, there is none.
#[derive(Clone, Copy)]
struct Climbed {
    before: u16,
    levels: usize,
}

// A part of a join: a part of one of its sides. Of a part: the trees before its hole.
#[derive(Clone, Copy)]
enum Down {
    On { rule: u16, part: u16 },
    Before(u16),
}

// Where a climb begins: at the first root.
const TOP: Climbed = Climbed {
    before: 0,
    levels: 0,
};

// The most levels of a path.
const LEVELS: usize = 64;

// The number of the tree at a spot, written below the levels above it.
fn put_level(path: &mut [u8], at: Climbed)
    requires { Ready path.old at }
    ensures { LevelPut at path.old path.new }
{
    words::write16(path, 2 * at.levels, at.before + 1);
}

// Under the tree at a spot, behind some trees there.
fn enter(path: &mut [u8], at: Climbed, ahead: u16) -> Option<Climbed>
    requires { Ready path.old at }
    ensures { let path' = path.exit.now in
        let path = path.entry.now in
        ((m : ℕ) → ahead ≡ min m most_place → Took path path' (m, path_to (spot_at path at)) result) }
{
    if (at.levels >= LEVELS - 1) | (ahead == tops_rows::MOST) {
        return None;
    }
    put_level(path, at);
    Some(Climbed {
        before: ahead,
        levels: at.levels + 1,
    })
}

// Past some trees beside a spot.
fn pass(at: Climbed, tops: u16) -> Option<Climbed>
    ensures { (path : List ℕ) (m : ℕ) → Ready path at → tops ≡ min m most_place → Took path path (at.before + m, levels_in path at.levels) result }
{
    if tops >= tops_rows::MOST - at.before {
        return None;
    }
    Some(Climbed {
        before: at.before + tops,
        levels: at.levels,
    })
}

// The trees of a part's L.
fn left_tops(rows: &[u8], r: u16) -> u16
    requires { CountedRows rows.now × In rows.now r }
    ensures { let t = rows.now in
        result ≡ min (left_tops (meaning t) ((facts_in t).rule r)) most_place }
{
    match facts::rule_at(rows, r) {
        Rule::Part { left, .. } => tops_rows::tops_at(rows, left),
        _ => 0,
    }
}

// From a part of a spine, by its number, to that of a side of the spine.
fn go_down(rows: &[u8], rule: u16, part: u16) -> Down
    requires { CountedRows rows.now × PartAt rows.now rule part }
    ensures { GoesDown rows.now rule part result }
{
    match facts::rule_at(rows, rule) {
        Rule::Join { outer, inner } => {
            let parts = tops_rows::tops_at(rows, outer);
            if part < parts {
                return Down::On { rule: outer, part };
            }
            Down::On {
                rule: inner,
                part: part - parts,
            }
        }
        _ => Down::Before(left_tops(rows, rule)),
    }
}

// The trees before the hole of a part of a spine.
fn part_ahead(rows: &[u8], rule: u16, part: u16) -> u16
    requires { CountedRows rows.now × PartAt rows.now rule part }
    ensures { result ≡ min (get_or (ahead (meaning rows.now rule)) part 0) most_place }
{
    let mut at = rule;
    let mut j = part;
    loop {
        match go_down(rows, at, j) {
            Down::On {
                rule: next,
                part: rest,
            } => {
                at = next;
                j = rest;
            }
            Down::Before(tops) => return tops,
        }
    }
}

// Through all parts of a spine, the outermost first.
fn through(rows: &[u8], path: &mut [u8], rule: u16, from: Climbed) -> Option<Climbed>
    requires { CountedRows rows.now × In rows.now rule × Good Sort.spine (meaning rows.now rule) × Ready path.old from }
    ensures { let path' = path.exit.now in
        let path = path.entry.now in
        Took path path' (through (meaning rows.now rule) (spot_at path from)) result }
{
    let parts = tops_rows::tops_at(rows, rule);
    let mut at = from;
    for j in 0..parts {
        let ahead = part_ahead(rows, rule, j);
        at = enter(path, at, ahead)?;
    }
    Some(at)
}

// One right step from a rule: past the trees of a pair's B, through the parts of a join's B.
fn right_step(rows: &[u8], path: &mut [u8], a: u16, at: Climbed) -> Option<Climbed>
    requires { CountedRows rows.now × In rows.now a × Ready path.old at }
    ensures { let t = rows.now in
        let path' = path.exit.now in
        let path = path.entry.now in
        Took path path' (step_spot (meaning t) ((facts_in t).rule a) (spot_at path at)) result }
{
    match facts::rule_at(rows, a) {
        Rule::Pair { first, .. } => pass(at, tops_rows::tops_at(rows, first)),
        Rule::Join { outer, .. } => through(rows, path, outer, at),
        _ => Some(at),
    }
}

// A run of right steps from a rule.
fn right_run(rows: &[u8], path: &mut [u8], a: u16, steps: u16, from: Climbed) -> Option<Climbed>
    requires { CountedRows rows.now × In rows.now a × Ready path.old from }
    ensures { let t = rows.now in
        let path' = path.exit.now in
        let path = path.entry.now in
        Took path path' (right_steps (facts_in t) (meaning t) steps a (spot_at path from)) result }
{
    let mut at = from;
    let mut rule = a;
    for _ in 0..steps {
        at = right_step(rows, path, rule, at)?;
        rule = facts::toward_at(rows, Side::Right, rule);
    }
    Some(at)
}

// How many right steps a run from rule a to rule b has.
fn steps_between(rows: &[u8], a: u16, b: u16) -> u16
    requires { In rows.now a × In rows.now b }
    ensures { result ≡ steps_between (facts_in rows.now) a b }
{
    let deep = facts::depth_at(rows, Side::Right, a);
    let left = facts::depth_at(rows, Side::Right, b);
    if deep < left {
        return 0;
    }
    deep - left
}

// The trees before those of a row with a number under a rule: of an R those of the L, and the hole's.
fn row_before(rows: &[u8], r: u16, number: u16) -> u16
    requires { CountedRows rows.now × In rows.now r }
    ensures { let t = rows.now in
        result ≡ min (row_before (meaning t) ((facts_in t).rule r) number) most_place }
{
    if number != Cell::RIGHT_ROW {
        return 0;
    }
    let left = left_tops(rows, r);
    if left == tops_rows::MOST {
        return left;
    }
    left + 1
}

// A tree's spine opened where a rule stands: in the hole of a part, else where it is.
fn open_tree(rows: &[u8], path: &mut [u8], r: u16, at: Climbed) -> Option<Climbed>
    requires { CountedRows rows.now × In rows.now r × Ready path.old at }
    ensures { let t = rows.now in
        let path' = path.exit.now in
        let path = path.entry.now in
        Took path path' (spine_spot (meaning t) ((facts_in t).rule r) (spot_at path at)) result }
{
    match facts::rule_at(rows, r) {
        Rule::Part { left, .. } => {
            let ahead = tops_rows::tops_at(rows, left);
            enter(path, at, ahead)
        }
        _ => Some(at),
    }
}

// One cell more.
fn climb_cell(rows: &[u8], path: &mut [u8], cursor: &[u8], i: usize, at: Climbed) -> Option<Climbed>
    requires { CountedRows rows.now × Held rows.now cursor.now i × (0 < i) × Ready path.old at }
    ensures { let t = rows.now in
        let s = cursor.now in
        let path' = path.exit.now in
        let path = path.entry.now in
        Took path path' (cell_spot (facts_in t) (meaning t) (cell_at s i) (cells_in s (i - 1)) (spot_at path at)) result }
{
    let cell = Cell::read(cursor, i);
    let kind = cell.kind;
    let one = cell.one;
    if kind == Cell::RIGHT {
        let steps = steps_between(rows, one, cell.two);
        return right_run(rows, path, one, steps, at);
    }
    if kind == Cell::SPINE {
        let under = move_parts::standing(rows, cursor, i - 1);
        return open_tree(rows, path, under, at);
    }
    if kind != Cell::ROW {
        return Some(at);
    }
    if i == 1 {
        return Some(TOP);
    }
    let under = move_parts::standing(rows, cursor, i - 1);
    let ahead = row_before(rows, under, one);
    enter(path, at, ahead)
}

// The path of the node that k cells lead to, the root's number first: how many levels are written, unless it is too far.
pub fn climb(rows: &[u8], path: &mut [u8], cursor: &[u8], k: usize) -> Option<usize>
    requires { CountedRows rows.now × Held rows.now cursor.now k × (path_length ≤ length path.old) }
    ensures { let t = rows.now in
        Traces path.old path.new (path_in (facts_in t) (meaning t) (cells_in cursor.now k)) result }
{
    if k == 0 {
        return Some(0);
    }
    let mut at = TOP;
    for i in 0..k {
        at = climb_cell(rows, path, cursor, i + 1, at)?;
    }
    put_level(path, at);
    Some(at.levels + 1)
}
