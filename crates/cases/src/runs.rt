// The operations, each run with just enough lent for the sample plan's eight rules; what comes of it is told as text and compared.
use crate::text::{Text, refused, tell};
use forest::Measured;
use letter::Letter;
use place_cells::Cell;
use plan::{Checked, Trailer};
use record::Format;
use refusal::Refusal;
use std::fmt::Write;
use std::{io, str};

// Bytes of work, of the cursor and of answers.
const WORK: usize = 512;

const CURSOR: usize = 288;

const ANSWERS: usize = 64;

// As "accepted 8 7", n and start.
fn checked(answer: Result<Checked, Refusal>) -> Text {
    match answer {
        Ok(Checked { n, start }) => {
            let mut text = Text::new();
            let _ = write!(text, "accepted {n} {start}");
            text
        }
        Err(why) => refused(why),
    }
}

// Check of a plan.
pub fn check(rt: &impl Print, case: &str, plan: &[u8], expected: &str) -> io::Result<()> {
    let came = checked(plan::check(plan));
    tell(rt, case, came.as_str(), expected)
}

// Check of so many empty rules: zeros that a trailer is written into.
pub fn check_empty(
    rt: &impl Print,
    case: &str,
    zeros: &mut [u8],
    n: u16,
    expected: &str,
) -> io::Result<()> {
    if Format::Narrow.length() * usize::from(n) + Trailer::LENGTH <= zeros.len() {
        Trailer::write(zeros, Format::Narrow, n, 0);
    }
    check(rt, case, zeros, expected)
}

// As "accepted 74", the length.
fn written(answer: Result<usize, Refusal>) -> Text {
    match answer {
        Ok(length) => {
            let mut text = Text::new();
            let _ = write!(text, "accepted {length}");
            text
        }
        Err(why) => refused(why),
    }
}

// Seal of the sample plan's rules, which stand before its trailer.
pub fn seal(rt: &impl Print, case: &str, expected: &str) -> io::Result<()> {
    let plan = sample::bytes();
    let mut sealed = [0u8; 74];
    let came = written(seal::seal(&plan[..64], 8, 7, &mut sealed));
    tell(rt, case, came.as_str(), expected)
}

// As "3 trees, 11 entries, 3 levels".
fn measured(answer: Result<Measured, Refusal>) -> Text {
    match answer {
        Ok(
            Measured {
                trees,
                entries,
                levels,
            },
        ) => {
            let mut text = Text::new();
            let _ = write!(text, "{trees} trees, {entries} entries, {levels} levels");
            text
        }
        Err(why) => refused(why),
    }
}

// Measure of the sample plan.
pub fn measure(rt: &impl Print, case: &str, expected: &str) -> io::Result<()> {
    let mut work = [1u8; WORK];
    let came = measured(measure::measure(&sample::bytes(), &mut work));
    tell(rt, case, came.as_str(), expected)
}

// Spread of the sample plan, and what stands in the output then.
pub fn spread(rt: &impl Print, case: &str, text: &mut [u8], expected: &str) -> io::Result<()> {
    let mut work = [1u8; WORK];
    let mut came = written(spread::spread(&sample::bytes(), &mut work, text));
    if let Ok(text) = str::from_utf8(text) {
        let _ = write!(came, " {text}");
    }
    tell(rt, case, came.as_str(), expected)
}

// Letters on a plan from above its forest; gives the answers, and the cursor holds the place.
fn walk(plan: &[u8], letters: &[u8], cursor: &mut [u8; CURSOR]) -> [u8; ANSWERS] {
    let mut work = [1u8; WORK];
    let mut answers = [0u8; ANSWERS];
    let _ = walk::walk(plan, &mut work, cursor, letters, &mut answers);
    answers
}

// A blank behind what stands there already.
fn put_gap(text: &mut Text) {
    if !text.as_str().is_empty() {
        let _ = text.try_push(' ');
    }
}

// The answers to letters: labels, and "-" for nowhere.
pub fn answers(
    rt: &impl Print,
    case: &str,
    plan: &[u8],
    letters: &str,
    expected: &str,
) -> io::Result<()> {
    let mut cursor = [0u8; CURSOR];
    let answers = walk(plan, letters.as_bytes(), &mut cursor);
    let mut came = Text::new();
    for i in 0..letters.len().min(ANSWERS / Letter::ANSWER_LENGTH) {
        let word = words::read32(&answers, Letter::ANSWER_LENGTH * i);
        put_gap(&mut came);
        if word == Letter::NOWHERE {
            let _ = came.try_push('-');
        } else {
            let _ = write!(came, "{word}");
        }
    }
    tell(rt, case, came.as_str(), expected)
}

// The used cells after letters on the sample plan, cells 1 to k, k being the first word of cell 0; a cell as "(1,0,7,0)".
pub fn cells(rt: &impl Print, case: &str, letters: &str, expected: &str) -> io::Result<()> {
    let mut cursor = [0u8; CURSOR];
    walk(&sample::bytes(), letters.as_bytes(), &mut cursor);
    let used = usize::from(words::read16(&cursor, 0));
    let mut came = Text::new();
    for i in 1..(used + 1).min(CURSOR / Cell::LENGTH) {
        let cell = Cell::read(&cursor, i);
        put_gap(&mut came);
        let _ = write!(
            came,
            "({},{},{},{})",
            cell.kind, cell.one, cell.two, cell.three
        );
    }
    tell(rt, case, came.as_str(), expected)
}

// The whole output of stroll on the sample plan.
pub fn stroll(rt: &impl Print, case: &str, letters: &str, expected: &str) -> io::Result<()> {
    let mut out = [0u8; stroll_output::MOST_OUTPUT];
    let length = stroll_output::stroll(&sample::bytes(), letters.as_bytes(), &mut out);
    tell(
        rt,
        case,
        str::from_utf8(&out[..length]).unwrap_or(""),
        expected,
    )
}
