// The cells of the stored place, in the lent cursor: what each holds, and how they change.
#![tactic(auto)]

ghost use Rattle.std.specs.Prelude.{◌≡◌, ℕ, ◌+◌, ◌*◌, ◌≤◌, List, length};
ghost use Rattle.words.specs.Put.{put};
ghost use Rattle.record.specs.Record.{word_length};
ghost use Rattle.forest.specs.Place.{cell_row, cell_spine, cell_run, row_of_part};
ghost use Rattle.forest.specs.Walk.{cell_length, cell_at, cells_in};
ghost use Rattle.model.specs.Model.{tail, pop_run, under};
ghost use Rattle.side.specs.Side.{side_of};
ghost use Rattle.place_cells.specs.Cells.{cell, put_cell, Lies};
ghost use Rattle.place_cells.specs.Changes.{add, high, Wrote};

use side::Side;

// The four 16-bit words of a cell.
#[derive(Clone, Copy)]
pub struct Cell {
    pub kind: u16,
    pub one: u16,
    pub two: u16,
    pub three: u16,
}

impl Cell {
    // The kinds: a row's opening, a spine's opening, a run of left steps, a run of right steps.
    pub const ROW: u16 = 1;

    pub const SPINE: u16 = 2;

    pub const LEFT: u16 = 3;

    pub const RIGHT: u16 = 4;

    // Words of a cell, bytes of a cell, and where its later words begin.
    pub const WORDS: usize = 4;

    pub const LENGTH: usize = 8;

    const ONE: usize = 2;

    const TWO: usize = 4;

    const THREE: usize = 6;

    // Cells of the cursor a rule, with as many more.
    pub const A_RULE: usize = 4;

    // The numbers of rows: under a node or the walked rule, the left and the right row of a part.
    pub const NODE_ROW: u16 = 0;

    pub const LEFT_ROW: u16 = 1;

    pub const RIGHT_ROW: u16 = 2;

    // The kind of a run to a side.
    pub fn run_kind(side: Side) -> u16
        ensures { result ≡ cell_run (side_of side) }
    {
        match side {
            Side::Left => Cell::LEFT,
            Side::Right => Cell::RIGHT,
        }
    }

    // The number of the row of a part's rule on a side.
    pub fn part_row(side: Side) -> u16
        ensures { result ≡ row_of_part (side_of side) }
    {
        match side {
            Side::Left => Cell::LEFT_ROW,
            Side::Right => Cell::RIGHT_ROW,
        }
    }

    // The cell with a number.
    pub fn read(s: &[u8], i: usize) -> Cell
        requires { cell_length * (i + 1) ≤ length s.now }
        ensures { result ≡ cell (cell_at s.now i) }
    {
        let at = Cell::LENGTH * i;
        Cell {
            kind: words::read16(s, at),
            one: words::read16(s, at + Cell::ONE),
            two: words::read16(s, at + Cell::TWO),
            three: words::read16(s, at + Cell::THREE),
        }
    }

    // The four words into the cell with a number.
    pub fn write(self, s: &mut [u8], i: usize)
        requires { cell_length * (i + 1) ≤ length s.old }
        ensures { s.new ≡ put_cell s.old i self }
    {
        let at = Cell::LENGTH * i;
        words::write16(s, at, self.kind);
        words::write16(s, at + Cell::ONE, self.one);
        words::write16(s, at + Cell::TWO, self.two);
        write_changed(s, at + Cell::THREE, self.three);
    }

    // The opening of a row with a number over a representative.
    pub fn row(number: u16, over: u16) -> Cell
        ensures { result ≡ cell (cell_row, number, over, 0) }
    {
        Cell {
            kind: Cell::ROW,
            one: number,
            two: over,
            three: 0,
        }
    }

    // The opening of the spine of a tree.
    pub fn spine(tree: u16) -> Cell
        ensures { result ≡ cell (cell_spine, tree, 0, 0) }
    {
        Cell {
            kind: Cell::SPINE,
            one: tree,
            two: 0,
            three: 0,
        }
    }

    // A run to a side, from a rule to a rule.
    pub fn run(side: Side, from: u16, to: u16) -> Cell
        ensures { result ≡ cell (cell_run (side_of side), from, to, 0) }
    {
        Cell {
            kind: Cell::run_kind(side),
            one: from,
            two: to,
            three: 0,
        }
    }

    // The run one step longer: it ends at the next rule.
    pub fn grown(mut self, next: u16) -> Cell
        ensures { result ≡ cell (self.kind, self.one, next, self.three) }
    {
        self.two = next;
        self
    }

    // The run one step shorter: it ends at the rule above its last.
    pub fn shrunk(mut self, above: u16) -> Cell
        ensures { result ≡ cell (self.kind, self.one, above, self.three) }
    {
        self.two = above;
        self
    }

    // The run of one step turned to the other side: it begins where it began, and ends at the rule there.
    pub fn turned(mut self, side: Side, next: u16) -> Cell
        ensures { result ≡ cell (cell_run (side_of side), self.one, next, 0) }
    {
        self.kind = Cell::run_kind(side);
        self.two = next;
        self.three = 0;
        self
    }
}

// A word into the two bytes from an offset on, where they hold another: a cell's last word seldom changes.
fn write_changed(s: &mut [u8], at: usize, v: u16)
    requires { at + word_length ≤ length s.old }
    ensures { s.new ≡ put word_length s.old at v }
{
    if words::read16(s, at) != v {
        words::write16(s, at, v);
    }
}

// The number of cells without the last.
pub fn tail(k: usize) -> usize
    ensures { (result ≤ k) × ((s : List ℕ) → cells_in s result ≡ tail (cells_in s k)) }
{
    k.saturating_sub(1)
}

// The number of cells without a run to a side on top.
pub fn pop_run(cursor: &[u8], k: usize, side: Side) -> usize
    requires { Lies cursor.now k }
    ensures { let cursor = cursor.entry.now in
        (result ≤ k)
        × (cells_in cursor result ≡ pop_run (side_of side) (cells_in cursor k)) }
{
    if k == 0 {
        return k;
    }
    if Cell::read(cursor, k).kind == Cell::run_kind(side) {
        return k - 1;
    }
    k
}

// The number of cells of the tree whose first part, or node, k cells lead to.
pub fn under(cursor: &[u8], k: usize) -> usize
    requires { Lies cursor.now k }
    ensures { (result ≤ k) × (cells_in cursor.now result ≡ under (cells_in cursor.now k)) }
{
    tail(pop_run(cursor, k, Side::Left))
}

// A cell on top of k cells, if there is one; gives their number.
pub fn push(cursor: &mut [u8], k: usize, cell: Option<Cell>) -> usize
    requires { Lies cursor.old (high cell k) }
    ensures { let cursor' = cursor.exit.now in
        let cursor = cursor.entry.now in
        (result ≡ high cell k)
        × Wrote (add cell (cells_in cursor k)) cursor cursor' }
{
    let Some(cell) = cell else {
        return k;
    };
    let top = k + 1;
    cell.write(cursor, top);
    top
}
