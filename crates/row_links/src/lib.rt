// Links to the openings of rows, in the cursor behind the cells of a place: the link of a row's opening leads to the opening of the
// row below it, and the link of cell 0 to that of the row which the place ends in.
#![tactic(auto)]

ghost use Rattle.std.specs.Prelude.{◌≡◌, ◌+◌, ◌-◌, ◌*◌, ◌≤◌, ◌<◌, length};
ghost use Rattle.words.specs.Put.{put};
ghost use Rattle.record.specs.Record.{word_length};
ghost use Rattle.forest.specs.Walk.{cells_in};
ghost use Rattle.work_rows.specs.Rows.{row_length};
ghost use Rattle.row_links.specs.Links.{row_on, link_at, link, Linkable, Linked, Relinked, opens_row};

use place_cells::Cell;

// Bytes of a link, and where the link of cell 0 begins past the rows.
const LENGTH: usize = 2;

const FIRST: usize = 30;

// Where the link of cell i lies.
fn link_at(rows: &[u8], i: usize) -> usize
    requires { word_length * i ≤ length rows.now + (row_length - word_length) }
    ensures { result ≡ link_at rows.now i }
{
    rows.len() + FIRST - LENGTH * i
}

// The link of cell i.
fn read_link(rows: &[u8], cursor: &[u8], i: usize) -> usize
    requires { (word_length * i ≤ length rows.now + (row_length - word_length))
        × (length rows.now + row_length ≤ length cursor.now) }
    ensures { (result ≡ link rows.now cursor.now i) × (result < 65536) }
{
    words::read16(cursor, link_at(rows, i)) as usize
}

// A number as the link of cell i.
fn write_link(rows: &[u8], cursor: &mut [u8], i: usize, v: usize)
    requires { (word_length * i ≤ length rows.now + (row_length - word_length))
        × (length rows.now + row_length ≤ length cursor.old)
        × (v < 65536) }
    ensures { cursor.new ≡ put word_length cursor.old (link_at rows.now i) v }
{
    words::write16(cursor, link_at(rows, i), v as u16);
}

// The number of the cell that opens the row which the first t of k cells end in, 0 if there is none.
pub fn row_under(rows: &[u8], cursor: &[u8], k: usize, t: usize) -> usize
    requires { Linkable rows.now cursor.now k × Linked rows.now cursor.now (cells_in cursor.now k) × (t ≤ k) }
    ensures { result ≡ row_on (cells_in cursor.now t) }
{
    let mut row = read_link(rows, cursor, 0);
    while t < row {
        row = read_link(rows, cursor, row);
    }
    row
}

// The links of the first of k cells alone.
pub fn keep_rows(rows: &[u8], cursor: &mut [u8], k: usize, keep: usize)
    requires { Linkable rows.now cursor.old k × Linked rows.now cursor.old (cells_in cursor.old k) × (keep ≤ k) }
    ensures { let rows = rows.entry.now in
        let cursor' = cursor.exit.now in
        let cursor = cursor.entry.now in
        Linked rows cursor' (cells_in cursor' keep)
        × Relinked rows k cursor cursor' }
{
    if read_link(rows, cursor, 0) <= keep {
        return;
    }
    let row = row_under(rows, cursor, k, keep);
    write_link(rows, cursor, 0, row);
}

// The links once cell i has opened a row.
pub fn open_row(rows: &[u8], cursor: &mut [u8], i: usize)
    requires { Linkable rows.now cursor.old i × (0 < i) }
    ensures { cursor.new ≡ opens_row rows.now i cursor.old }
{
    let row = read_link(rows, cursor, 0);
    write_link(rows, cursor, i, row);
    write_link(rows, cursor, 0, i);
}

// The links of cells up to cell i, where those of the cells below it are there.
fn link_cell(rows: &[u8], cursor: &mut [u8], i: usize)
    requires { Linkable rows.now cursor.old i × (0 < i) × Linked rows.now cursor.old (cells_in cursor.old (i - 1)) }
    ensures { let rows = rows.entry.now in
        let cursor' = cursor.exit.now in
        let cursor = cursor.entry.now in
        Linked rows cursor' (cells_in cursor' i)
        × Relinked rows i cursor cursor' }
{
    if Cell::read(cursor, i).kind != Cell::ROW {
        return;
    }
    open_row(rows, cursor, i);
}

// The links of k cells.
pub fn fill(rows: &[u8], cursor: &mut [u8], k: usize)
    requires { Linkable rows.now cursor.old k }
    ensures { let rows = rows.entry.now in
        let cursor' = cursor.exit.now in
        let cursor = cursor.entry.now in
        Linked rows cursor' (cells_in cursor' k)
        × Relinked rows k cursor cursor' }
{
    write_link(rows, cursor, 0, 0);
    for i in 0..k {
        link_cell(rows, cursor, i + 1);
    }
}
