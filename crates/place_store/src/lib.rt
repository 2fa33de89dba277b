// The stored place: its number of used cells in cell 0 with the word that names the walked rule, and zeros past them.
#![tactic(auto)]

ghost use Rattle.std.specs.Prelude.{◌≡◌, ◌+◌, ◌*◌, ◌%◌, ◌≤◌, length};
ghost use Rattle.forest.specs.Walk.{cell_length, cell_at, cells_in, headed, stored_cursor};
ghost use Rattle.place_cells.specs.Cells.{cell, put_cell, cursor_length};
ghost use Rattle.place_store.specs.Head.{head_of};
ghost use Rattle.place_store.specs.Past.{cleared_past};

use place_cells::Cell;

// Zeros past k cells, in what n rules need of the cursor.
fn clear_past(cursor: &mut [u8], k: usize, n: u16)
    requires { (cell_length * (k + 1) ≤ cursor_length n) × (cursor_length n ≤ length cursor.old) }
    ensures { cursor.new ≡ cleared_past k n cursor.old }
{
    let from = Cell::LENGTH * (k + 1);
    let to = Cell::LENGTH * Cell::A_RULE * (n as usize + 1);
    words::clear(&mut cursor[from..], to - from);
}

// Cell 0: the number of used cells, the word that names the walked rule (document 02, Note 10), then two words, which are 0.
#[derive(Clone, Copy)]
pub struct Head {
    pub used: u16,
    pub word: u16,
    two: u16,
    three: u16,
}

impl Head {
    // Cell 0 of a cursor.
    pub fn read(cursor: &[u8]) -> Head
        requires { cell_length ≤ length cursor.now }
        ensures { result ≡ head_of (cell_at cursor.now 0) }
    {
        let cell = Cell::read(cursor, 0);
        Head {
            used: cell.kind,
            word: cell.one,
            two: cell.two,
            three: cell.three,
        }
    }

    // Cell 0 of a place with k used cells, into the cursor.
    fn write(cursor: &mut [u8], k: usize, word: u16)
        requires { cell_length ≤ length cursor.old }
        ensures { cursor.new ≡ put_cell cursor.old 0 (cell (k % 65536, word, 0, 0)) }
    {
        let cell = Cell {
            kind: (k % 65536) as u16,
            one: word,
            two: 0,
            three: 0,
        };
        cell.write(cursor, 0);
    }
}

// The place of cells 1 to k: their number into cell 0, with the word that names the walked rule, and zeros past them.
pub fn store(cursor: &mut [u8], k: usize, n: u16, word: u16)
    requires { (cell_length * (k + 1) ≤ cursor_length n) × (cursor_length n ≤ length cursor.old) }
    ensures { cursor.new ≡ stored_cursor n word (cells_in cursor.old k) cursor.old }
{
    Head::write(cursor, k, word);
    clear_past(cursor, k, n);
}

// Cell 0 is in order: its words 2 and 3 are 0, and its cells lie in what n rules need of the cursor.
pub fn headed(cursor: &[u8], n: u16) -> bool
    requires { cell_length ≤ length cursor.now }
    ensures { result ≡ headed n cursor.now }
{
    let head = Head::read(cursor);
    let used = head.used as usize;
    (head.two == 0)
        & ((head.three == 0)
            & (Cell::WORDS * (used + 1) <= Cell::WORDS * Cell::A_RULE * (n as usize + 1)))
}
