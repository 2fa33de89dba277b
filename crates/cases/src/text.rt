// What comes of a case as text, and its comparison with what document 01 gives.
use arrayvec::ArrayString;
use refusal::Refusal;
use std::fmt::Write;
use std::io;

// A text in memory of its own, so that no case needs the heap: at most so many bytes, and the piece that comes past them is left out.
pub type Text = ArrayString<96>;

// As "refused 5 at 0".
pub fn refused(why: Refusal) -> Text {
    let mut text = Text::new();
    let _ = write!(text, "refused {} at {}", why.number(), why.position());
    text
}

// The line of a case: what came, and where that is something else, what was to come.
pub fn tell(rt: &impl Print, case: &str, came: &str, expected: &str) -> io::Result<()> {
    if came == expected {
        println!(rt; "ok: {case}: {came}")
    } else {
        println!(rt; "FAILED: {case}: {came}, expected {expected}")
    }
}
