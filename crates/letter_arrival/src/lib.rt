// What a letter that leads to a node comes to: its cells are written, and its label is the answer.
#![tactic(auto)]

ghost use Rattle.std.specs.Prelude.{◌≡◌, length};
ghost use Rattle.forest.specs.Letter.{Letter};
ghost use Rattle.forest.specs.Place as place;
ghost use Rattle.forest.specs.Place.{step};
ghost use Rattle.forest.specs.Sides.{other};
ghost use Rattle.forest.specs.Walk.{cells_in};
ghost use Rattle.model.specs.Model.{shrunk, opened};
ghost use Rattle.model.specs.Walk.{label};
ghost use Rattle.side.specs.Side.{side_of};
ghost use Rattle.facts.specs.Facts.{facts_in, In};
ghost use Rattle.facts.specs.Closes.{Closes};
ghost use Rattle.place_cells.specs.Cells.{Lies};
ghost use Rattle.place_cells.specs.Changes.{Put};
ghost use Rattle.move_parts.specs.Moves.{above_top, Turns, Turning};
ghost use Rattle.move_parts.specs.Change.{turned_at, entered, change_node, keep_of};
ghost use Rattle.letter_arrival.specs.Arrived.{Arriving, Settling, Stood, Settled, Arrived};

use move_parts::Change;
use place_cells::Cell;
use rule::Rule;
use side::Side;

// Where a walk stands: the used cells and the standing rule, which change together.
#[derive(Clone, Copy)]
pub struct Standing {
    pub used: usize,
    pub rule: u16,
}

// What a letter comes to: where the walk stands then, and the answer.
#[derive(Clone, Copy)]
pub struct Landing {
    pub at: Standing,
    pub answer: u32,
}

// The label of a rule.
fn label(work: &[u8], r: u16) -> u32
    requires { In work.now r }
    ensures { result ≡ label ((facts_in work.now).rule r) }
{
    match facts::rule_at(work, r) {
        Rule::Node { label, .. } => label,
        Rule::Part { label, .. } => label,
        _ => 0,
    }
}

// The run on top of k cells one step shorter, gone if it had one step, and then a step to a side from the rule above its last.
fn put_short(work: &[u8], cursor: &mut [u8], k: usize, side: Side, above: u16, to: u16) -> usize
    requires { Turns work.now cursor.old k (side_of side)
        × (above ≡ above_top work.now cursor.old k (side_of side))
        × Lies cursor.old (length (step (side_of side) above to
        (shrunk (facts_in work.now) (other (side_of side)) (cells_in cursor.old k)))) }
    ensures { let cursor' = cursor.exit.now in
        let cursor = cursor.entry.now in
        Put (step (side_of side) above to (shrunk (facts_in work.now) (other (side_of side)) (cells_in cursor k)))
        cursor cursor' result }
{
    let top = Cell::read(cursor, k);
    let back = side.other();
    let from = facts::depth_at(work, back, top.one) as usize;
    let end = facts::depth_at(work, back, top.two) as usize;
    if end + 1 < from {
        top.shrunk(above).write(cursor, k);
        return place_cells::push(cursor, k, Some(Cell::run(side, above, to)));
    }
    let under = Cell::read(cursor, k - 1);
    if (1 < k) & (under.kind == Cell::run_kind(side)) {
        under.grown(to).write(cursor, k - 1);
        return k - 1;
    }
    top.turned(side, to).write(cursor, k);
    k
}

// The run on top of k cells one step shorter, then a step to the side, then the longest run back.
pub fn put_turn(work: &[u8], cursor: &mut [u8], k: usize, side: Side, above: u16) -> Standing
    requires { Turns work.now cursor.old k (side_of side)
        × (above ≡ above_top work.now cursor.old k (side_of side))
        × Lies cursor.old (length (turned_at (facts_in work.now) (side_of side) above (cells_in cursor.old k)).1) }
    ensures { let cursor' = cursor.exit.now in
        let cursor = cursor.entry.now in
        Stood (turned_at (facts_in work.now) (side_of side) above (cells_in cursor k)) cursor cursor' result }
{
    let to = facts::toward_at(work, side, above);
    let back = side.other();
    let used = put_short(work, cursor, k, side, above, to);
    let used = place_cells::push(cursor, used, move_parts::run_from(work, back, to));
    let rule = facts::last_at(work, back, to);
    Standing { used, rule }
}

// The root of a tree, whose spine goes on top of k cells, with the run down it.
pub fn put_tree(work: &[u8], cursor: &mut [u8], k: usize, tree: u16) -> Standing
    requires { Closes work.now × In work.now tree
        × Lies cursor.old (length (opened (facts_in work.now) tree (cells_in cursor.old k)).1) }
    ensures { let cursor' = cursor.exit.now in
        let cursor = cursor.entry.now in
        Stood (opened (facts_in work.now) tree (cells_in cursor k)) cursor cursor' result }
{
    let k = place_cells::push(cursor, k, Some(Cell::spine(tree)));
    let first = facts::outer_at(work, tree);
    let k = place_cells::push(cursor, k, move_parts::run_from(work, Side::Left, first));
    let rule = facts::last_at(work, Side::Left, first);
    Standing { used: k, rule }
}

// The root of the first or last tree of a row over a representative, opened on top of k cells with a number. It stands once in the machine
// code, not in each letter that opens a row.
#[inline(never)]
pub fn put_row(
    work: &[u8],
    cursor: &mut [u8],
    k: usize,
    side: Side,
    number: u16,
    over: u16,
) -> Standing
    requires { Closes work.now × In work.now over
        × Lies cursor.old (length (entered (facts_in work.now) (side_of side) number over (cells_in cursor.old k)).1) }
    ensures { let cursor' = cursor.exit.now in
        let cursor = cursor.entry.now in
        Stood (entered (facts_in work.now) (side_of side) number over (cells_in cursor k)) cursor cursor' result }
{
    let k = place_cells::push(cursor, k, Some(Cell::row(number, over)));
    let k = place_cells::push(cursor, k, move_parts::run_from(work, side, over));
    put_tree(work, cursor, k, facts::last_at(work, side, over))
}

// The run on top of k cells turned to a side, and the root of the tree at the rule that it then ends at.
fn put_beside_tree(work: &[u8], cursor: &mut [u8], k: usize, side: Side, above: u16) -> Standing
    requires { Turning work.now cursor.old k (side_of side) above
        × Lies cursor.old (length (opened (facts_in work.now)
        (turned_at (facts_in work.now) (side_of side) above (cells_in cursor.old k)).0
        (turned_at (facts_in work.now) (side_of side) above (cells_in cursor.old k)).1).1) }
    ensures { let cursor' = cursor.exit.now in
        let cursor = cursor.entry.now in
        let work = work.entry.now in
        let beside = turned_at (facts_in work) (side_of side) above (cells_in cursor k) in
        Stood (opened (facts_in work) beside.0 beside.1) cursor cursor' result }
{
    let at = put_turn(work, cursor, k, side, above);
    put_tree(work, cursor, at.used, at.rule)
}

// The cells of the root of the first or last tree, by its change. Here and below, a letter has only some of the changes, and another is
// never met.
fn put_root(work: &[u8], cursor: &mut [u8], k: usize, change: Change, side: Side) -> Standing
    requires { Arriving work.now cursor.old k (Letter.root (side_of side)) change × (keep_of change ≡ 0) }
    ensures { let cursor' = cursor.exit.now in
        let cursor = cursor.entry.now in
        let work = work.entry.now in
        Settled work (change_node (facts_in work) (Letter.root (side_of side)) change cursor) cursor cursor' result }
{
    match change {
        Change::Row { keep, number, over } => {
            row_links::fill(work, cursor, 0);
            row_links::open_row(work, cursor, keep + 1);
            put_row(work, cursor, keep, side, number, over)
        }
        _ => Standing { used: 0, rule: 0 },
    }
}

// The cells of the first or last child, by its change.
fn put_child(work: &[u8], cursor: &mut [u8], k: usize, change: Change, side: Side) -> Standing
    requires { Arriving work.now cursor.old k (Letter.child (side_of side)) change }
    ensures { let cursor' = cursor.exit.now in
        let cursor = cursor.entry.now in
        let work = work.entry.now in
        Settled work (change_node (facts_in work) (Letter.child (side_of side)) change cursor) cursor cursor' result }
{
    match change {
        Change::Turn { keep, above } => {
            row_links::keep_rows(work, cursor, k, keep);
            put_turn(work, cursor, keep, Side::Right, above) // into its hole
        }
        Change::Row { keep, number, over } => {
            row_links::keep_rows(work, cursor, k, keep);
            row_links::open_row(work, cursor, keep + 1);
            put_row(work, cursor, keep, side, number, over)
        }
        Change::Spine { keep, tree } => {
            row_links::keep_rows(work, cursor, k, keep);
            put_tree(work, cursor, keep, tree)
        }
        _ => Standing { used: 0, rule: 0 },
    }
}

// The cells of the sibling on a side, by its change.
fn put_sibling(work: &[u8], cursor: &mut [u8], k: usize, change: Change, side: Side) -> Standing
    requires { Arriving work.now cursor.old k (Letter.sibling (side_of side)) change }
    ensures { let cursor' = cursor.exit.now in
        let cursor = cursor.entry.now in
        let work = work.entry.now in
        Settled work (change_node (facts_in work) (Letter.sibling (side_of side)) change cursor) cursor cursor' result }
{
    let back = side.other();
    match change {
        Change::Turn { keep, above } => {
            row_links::keep_rows(work, cursor, k, keep);
            put_turn(work, cursor, keep, Side::Right, above)
        }
        Change::Tree { keep, above } => {
            row_links::keep_rows(work, cursor, k, keep);
            put_beside_tree(work, cursor, keep, side, above)
        }
        Change::Beside {
            keep,
            above,
            number,
            over,
        } => {
            row_links::keep_rows(work, cursor, k, keep);
            let at = put_turn(work, cursor, keep, Side::Left, above);
            row_links::open_row(work, cursor, at.used + 1);
            put_row(work, cursor, at.used, back, number, over)
        }
        Change::Row { keep, number, over } => {
            row_links::keep_rows(work, cursor, k, keep);
            row_links::open_row(work, cursor, keep + 1);
            put_row(work, cursor, keep, back, number, over)
        }
        Change::Spine { keep, tree } => {
            row_links::keep_rows(work, cursor, k, keep);
            put_tree(work, cursor, keep, tree)
        }
        _ => Standing { used: 0, rule: 0 },
    }
}

// The cells of the parent, by its change.
fn put_parent(work: &[u8], cursor: &mut [u8], k: usize, change: Change) -> Standing
    requires { Arriving work.now cursor.old k Letter.parent change }
    ensures { let cursor' = cursor.exit.now in
        let cursor = cursor.entry.now in
        let work = work.entry.now in
        Settled work (change_node (facts_in work) Letter.parent change cursor) cursor cursor' result }
{
    match change {
        Change::Turn { keep, above } => {
            row_links::keep_rows(work, cursor, k, keep);
            put_turn(work, cursor, keep, Side::Left, above)
        }
        Change::Kept { keep, rule } => {
            row_links::keep_rows(work, cursor, k, keep); // out of its rows
            Standing { used: keep, rule }
        }
        _ => Standing { used: 0, rule: 0 },
    }
}

// The cells of the node itself, by its change.
fn put_same(work: &[u8], cursor: &mut [u8], k: usize, change: Change) -> Standing
    requires { Arriving work.now cursor.old k Letter.stay change × (keep_of change ≡ k) }
    ensures { let cursor' = cursor.exit.now in
        let cursor = cursor.entry.now in
        let work = work.entry.now in
        Settled work (change_node (facts_in work) Letter.stay change cursor) cursor cursor' result }
{
    match change {
        Change::Kept { keep, rule } => Standing { used: keep, rule },
        _ => Standing { used: 0, rule: 0 },
    }
}

// What a letter that leads to a node comes to, once its cells are written.
fn land(work: &[u8], at: Standing) -> Landing
    requires { In work.now at.rule }
    ensures { result ≡ record { at = at; answer = label ((facts_in work.now).rule at.rule) } }
{
    let answer = label(work, at.rule);
    Landing { at, answer }
}

// What a letter to the root of the first or last tree comes to, by its change.
pub fn arrive_root(work: &[u8], cursor: &mut [u8], k: usize, change: Change, side: Side) -> Landing
    requires { Arriving work.now cursor.old k (Letter.root (side_of side)) change × (keep_of change ≡ 0) }
    ensures { let cursor' = cursor.exit.now in
        let cursor = cursor.entry.now in
        let work = work.entry.now in
        Arrived work (change_node (facts_in work) (Letter.root (side_of side)) change cursor) cursor cursor' result }
{
    let at = put_root(work, cursor, k, change, side);
    land(work, at)
}

// What a letter to the first or last child comes to, by its change.
pub fn arrive_child(work: &[u8], cursor: &mut [u8], k: usize, change: Change, side: Side) -> Landing
    requires { Arriving work.now cursor.old k (Letter.child (side_of side)) change }
    ensures { let cursor' = cursor.exit.now in
        let cursor = cursor.entry.now in
        let work = work.entry.now in
        Arrived work (change_node (facts_in work) (Letter.child (side_of side)) change cursor) cursor cursor' result }
{
    let at = put_child(work, cursor, k, change, side);
    land(work, at)
}

// What a letter to the sibling on a side comes to, by its change.
pub fn arrive_sibling(
    work: &[u8],
    cursor: &mut [u8],
    k: usize,
    change: Change,
    side: Side,
) -> Landing
    requires { Arriving work.now cursor.old k (Letter.sibling (side_of side)) change }
    ensures { let cursor' = cursor.exit.now in
        let cursor = cursor.entry.now in
        let work = work.entry.now in
        Arrived work (change_node (facts_in work) (Letter.sibling (side_of side)) change cursor) cursor cursor' result }
{
    let at = put_sibling(work, cursor, k, change, side);
    land(work, at)
}

// What a letter to the parent comes to, by its change.
pub fn arrive_parent(work: &[u8], cursor: &mut [u8], k: usize, change: Change) -> Landing
    requires { Arriving work.now cursor.old k Letter.parent change }
    ensures { let cursor' = cursor.exit.now in
        let cursor = cursor.entry.now in
        let work = work.entry.now in
        Arrived work (change_node (facts_in work) Letter.parent change cursor) cursor cursor' result }
{
    let at = put_parent(work, cursor, k, change);
    land(work, at)
}

// What a letter to the node itself comes to, by its change.
pub fn arrive_same(work: &[u8], cursor: &mut [u8], k: usize, change: Change) -> Landing
    requires { Arriving work.now cursor.old k Letter.stay change × (keep_of change ≡ k) }
    ensures { let cursor' = cursor.exit.now in
        let cursor = cursor.entry.now in
        let work = work.entry.now in
        Arrived work (change_node (facts_in work) Letter.stay change cursor) cursor cursor' result }
{
    let at = put_same(work, cursor, k, change);
    land(work, at)
}
