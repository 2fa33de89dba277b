// Who may read which label (document 02, Note 5): a lent list of rows, walked once for gaps and overlaps, and searched for the row of a
// label.
#![tactic(auto)]

ghost use Rattle.std.specs.Prelude.{◌≡◌, ◌+◌, ◌^◌, ◌<◌, ◌≤◌, if◌then◌else◌, nat_lt};
ghost use Rattle.rule.specs.Rule.{largest_label};
ghost use Rattle.label_rows.specs.Coverage.{invalid, extended, ended, coverage};
ghost use Rattle.label_rows.specs.Class.{covers, row_of, label_judged, classed};

use record::Format;
use refusal::Refusal;

// The number of labels.
const LABELS: usize = 16777216;

// The most rows of which one is guessed, 2^40: the product of their number and a label fits.
const MOST_GUESSED: usize = 1099511627776;

// 2^33, more than a number of 32 bits: whether one is below another is a quotient by it.
const BEYOND: usize = 8589934592;

// A row of the list: the labels from the lowest to the highest have the class, and an entry with one of them weighs so many grams.
#[repr(C)]
#[derive(Clone, Copy)]
pub struct LabelRow {
    pub lowest: u32,
    pub highest: u32,
    pub class: u16,
    pub grams: u16,
}

impl LabelRow {
    // The largest class.
    pub const LARGEST_CLASS: u16 = 3;

    // Whether the row is wrong by itself.
    #[tactic(auto, unfolding(crate::specs::Coverage::invalid))]
    fn invalid(self) -> bool
        ensures { result ≡ invalid self }
    {
        (self.highest < self.lowest)
            | ((Format::WIDE_LABEL < self.highest) | (LabelRow::LARGEST_CLASS < self.class))
    }

    // Whether a row covers a label, by one comparison: a label below the lowest wraps to a number above all widths.
    fn covers(self, label: u32) -> bool
        requires { self.lowest ≤ self.highest }
        ensures { result ≡ covers self label }
    {
        label.wrapping_sub(self.lowest) <= self.highest - self.lowest
    }
}

// How far the rows before row i cover the labels, each once, and row i with them: up to the label that comes next.
fn extend(next: u32, i: usize, row: LabelRow) -> Result<u32, Refusal>
    ensures { result ≡ extended (Ok next) i row }
{
    let lowest = row.lowest;
    let highest = row.highest;
    let invalid = row.invalid();
    let gap = next < lowest;
    let overlap = lowest < next;
    if invalid {
        return Err(Refusal::Row(i));
    }
    if gap {
        return Err(Refusal::Gap(i));
    }
    if overlap {
        return Err(Refusal::Overlap(i));
    }
    Ok(highest + 1)
}

// Past the last of n rows, where they cover the labels below the next one.
fn end(next: u32, n: usize) -> Result<(), Refusal>
    ensures { result ≡ ended (Ok next) n }
{
    if next <= Format::WIDE_LABEL {
        return Err(Refusal::Gap(n));
    }
    Ok(())
}

// A label judged behind the list.
#[tactic(auto, unfolding(crate::specs::Class::label_judged))]
fn judge_label(label: u32) -> Result<(), Refusal>
    ensures { result ≡ label_judged (Ok tt) label }
{
    if label <= Format::WIDE_LABEL {
        return Ok(());
    }
    Err(Refusal::Malformed(0))
}

// The check of a list: one walk over its rows.
pub fn check(rows: &[LabelRow]) -> Result<(), Refusal>
    ensures { result ≡ coverage rows.now }
{
    let mut next = 0;
    for (i, &row) in rows.iter().enumerate() {
        next = extend(next, i, row)?;
    }
    end(next, rows.len())
}

// Of how many of n rows one is guessed.
fn guessed_among(n: usize) -> usize
    requires { 0 < n }
    ensures { (0 < result) × ((result ≤ n) × (result ≤ 2 ^ 40)) }
{
    if n <= MOST_GUESSED {
        return n;
    }
    MOST_GUESSED
}

// A row of a list of n rows: that of a label, if all have as many labels.
fn guess(label: u32, n: usize) -> usize
    requires { (label ≤ largest_label) × (0 < n) }
    ensures { result < n }
{
    if n <= 1 {
        return 0;
    }
    (label as usize) * guessed_among(n) / LABELS
}

// The row where a search begins: the one guessed, if it covers the label, and else the first.
fn first_row(guessed: usize, row: LabelRow, label: u32) -> usize
    requires { row.lowest ≤ row.highest }
    ensures { result ≡ (if covers row label then guessed else 0) }
{
    if row.covers(label) {
        return guessed;
    }
    0
}

// How many rows are searched from there on: one, or all.
fn rows_left(row: LabelRow, label: u32, n: usize) -> usize
    requires { row.lowest ≤ row.highest }
    ensures { result ≡ (if covers row label then 1 else n) }
{
    if row.covers(label) {
        return 1;
    }
    n
}

// 1 if a row's highest label is below a label, and else 0: a quotient and no comparison, of which the compiler makes a jump.
fn below(highest: u32, label: u32) -> usize
    ensures { result ≡ (if nat_lt highest label then 1 else 0) }
{
    (BEYOND - 1 + (label as usize) - (highest as usize)) / BEYOND
}

// Where the search goes on, by the highest label of the last of the first half of the rows: past them, or where it was.
fn next_row(low: usize, half: usize, highest: u32, label: u32) -> usize
    requires { low + half < 2 ^ 64 }
    ensures { result ≡ (if nat_lt highest label then low + half else low) }
{
    low + half * below(highest, label)
}

// The row of a label in a sound list: the one guessed, if it covers the label, and else by binary search: of `count` rows from `low` on the
// first whose highest label isn't below it. A step chooses by values, and how many steps there are depends on the number of rows alone: of
// labels at random a processor can't foretell which way they lead.
pub fn find(rows: &[LabelRow], label: u32) -> LabelRow
    requires { (coverage rows.now ≡ Ok tt) × (label ≤ largest_label) }
    ensures { result ≡ row_of rows.now label }
{
    let n = rows.len();
    let guessed = guess(label, n);
    let row = rows[guessed];
    let mut low = first_row(guessed, row, label);
    let mut count = rows_left(row, label, n);
    while 1 < count {
        let half = count / 2;
        low = next_row(low, half, rows[low + half - 1].highest, label);
        count -= half;
    }
    rows[low]
}

// The class of a label, once the list is sound and the label is one.
pub fn class_of(rows: &[LabelRow], label: u32) -> Result<u16, Refusal>
    ensures { result ≡ classed rows.now label }
{
    check(rows)?;
    judge_label(label)?;
    Ok(find(rows, label).class)
}
