// The lines of a page (document 02, Note 13), written into a lent slice.
#![tactic(auto)]

ghost use Rattle.std.specs.Prelude.{◌≡◌, ◌+◌, ◌*◌, ◌≤◌, length, replicate};
ghost use Rattle.decimal.specs.Decimal.{decimal};
ghost use Rattle.decimal.specs.Put.{Put};
ghost use Rattle.decimal.specs.Text.{Room, Pushed};
ghost use Rattle.forest.specs.Walk.{answer_length};
ghost use Rattle.stroll_line.specs.Lines.{shown};
ghost use Rattle.stroll_line.specs.Said.{answer_of, answers_from};
ghost use Rattle.page_line.specs.Page.{right_set, page_line, columns, line_bytes, numbered, blank_line, blank_lines, page_lines, page_text};
ghost use Rattle.page_line.specs.Page.{most_number, Short, Shorts};

use decimal::Text;
use itoa::Buffer;
use letter::Letter;
use stroll_line::LINE_END;

// Columns of a line.
const COLUMNS: usize = 40;

// Columns of a letter's number, of a label, and the blank ones behind it.
const NUMBER: usize = 6;

const LABEL: usize = 8;

const BEHIND: usize = 23;

// Lines of a page, and its bytes.
pub const PAGE_LINES: usize = 50;

pub const PAGE_BYTES: usize = 2050;

// Blanks.
fn put_blanks(text: &mut Text, n: usize)
    requires { (n ≤ columns) × Room text.old n }
    ensures { Pushed (replicate n 32) text.old text.new × (text.new.len ≡ text.old.len + n) }
{
    let blanks = [b' '; COLUMNS];
    text.push_bytes(&blanks[..n]);
}

// A number, right set.
fn put_right(text: &mut Text, width: usize, v: u64)
    requires { (length (decimal v) ≤ width) × (width ≤ columns) × Room text.old width }
    ensures { Pushed (right_set width (decimal v)) text.old text.new × (text.new.len ≡ text.old.len + width) }
{
    let mut buffer = Buffer::new();
    let digits = buffer.format(v);
    put_blanks(text, width - digits.len());
    text.push_bytes(digits.as_bytes());
}

// A label, right set, or "-" for nowhere.
fn put_label(text: &mut Text, word: u32)
    requires { Short (answer_of word) × Room text.old 8 }
    ensures { Pushed (right_set 8 (shown (answer_of word))) text.old text.new × (text.new.len ≡ text.old.len + 8) }
{
    if word == Letter::NOWHERE {
        put_blanks(text, LABEL - 1);
        text.push(b'-');
    } else {
        put_right(text, LABEL, word as u64);
    }
}

// A letter's line.
fn put_line(text: &mut Text, i: u64, letter: u8, word: u32)
    requires { (i ≤ most_number) × Short (answer_of word) × Room text.old line_bytes }
    ensures { Pushed (page_line i letter (answer_of word)) text.old text.new × (text.new.len ≡ text.old.len + line_bytes) }
{
    put_right(text, NUMBER, i);
    text.push(b' ');
    text.push(letter);
    text.push(b' ');
    put_label(text, word);
    put_blanks(text, BEHIND);
    text.push(LINE_END);
}

// A line of blanks.
fn put_blank_line(text: &mut Text)
    requires { Room text.old line_bytes }
    ensures { Pushed blank_line text.old text.new × (text.new.len ≡ text.old.len + line_bytes) }
{
    put_blanks(text, COLUMNS);
    text.push(LINE_END);
}

// The lines of letters from a number on, with their words of answers.
fn put_lines(text: &mut Text, first: u64, letters: &[u8], given: &[u8])
    requires { (answer_length * length letters.now ≤ length given.now) × (first + length letters.now ≤ most_number + 1)
        × Shorts (answers_from (length letters.now) given.now 0) × Room text.old (line_bytes * length letters.now) }
    ensures { Pushed (numbered first letters.now (answers_from (length letters.now) given.now 0)) text.old text.new
        × (text.new.len ≡ text.old.len + line_bytes * length letters.now) }
{
    for (i, &letter) in letters.iter().enumerate() {
        let word = words::read32(given, Letter::ANSWER_LENGTH * i);
        put_line(text, first + i as u64, letter, word);
    }
}

// So many lines of blanks.
fn put_blank_lines(text: &mut Text, m: usize)
    requires { (m ≤ page_lines) × Room text.old (line_bytes * m) }
    ensures { Pushed (blank_lines m) text.old text.new × (text.new.len ≡ text.old.len + line_bytes * m) }
{
    for _ in 0..m {
        put_blank_line(text);
    }
}

// A page of at most fifty letters from a number on, at the front of the output; gives its length.
pub fn put_page(out: &mut [u8], first: u64, letters: &[u8], given: &[u8]) -> usize
    requires { (length letters.now ≤ page_lines) × (answer_length * length letters.now ≤ length given.now)
        × (first + length letters.now ≤ most_number + 1) × Shorts (answers_from (length letters.now) given.now 0)
        × (line_bytes * page_lines ≤ length out.old) }
    ensures { Put (page_text first letters.now (answers_from (length letters.now) given.now 0)) 0 out.old out.new result × (result ≡ line_bytes * page_lines) }
{
    let mut text = Text::new(out);
    put_lines(&mut text, first, letters, given);
    put_blank_lines(&mut text, PAGE_LINES - letters.len());
    text.len()
}
