// Runs every case of document 01, "One sample plan", on the library, and prints a line for each: "ok" and what came, or "FAILED", what came
// and what document 01 gives. The file stdout holds the lines as they are to be, so a case that fails fails the gate.
#![tactic(auto)]

use runs::{answers, cells, check, check_empty, measure, seal, spread, stroll};
use std::io;

mod runs;
mod text;

// The plans of cases: rules of four words, then n, start, distance and mark.
const NO_RULES: [u8; 10] = *b"\x00\x00\x00\x00\x00\x00\x00\x00mp";

// One empty rule.
const EMPTY: [u8; 18] = *b"\x00\x00\x00\x00\x00\x00\x00\x00\x01\x00\x00\x00\x08\x00\x00\x00mp";

// One rule, pair 0 0.
const PAIR: [u8; 18] = *b"\x01\x00\x00\x00\x00\x00\x00\x00\x01\x00\x00\x00\x08\x00\x00\x00mp";

// Node 255 over an empty rule, and node 256.
const LABEL_255: [u8; 26] =
    *b"\x00\x00\x00\x00\x00\x00\x00\x00\x02\x00\xff\x00\x00\x00\x00\x00\x02\x00\x01\x00\x10\x00\x00\x00mp";

const LABEL_256: [u8; 26] =
    *b"\x00\x00\x00\x00\x00\x00\x00\x00\x02\x00\x00\x01\x00\x00\x00\x00\x02\x00\x01\x00\x10\x00\x00\x00mp";

// The plan's bytes: n and start, or the refusal.
fn format_cases(rt: &impl Print) -> io::Result<()> {
    seal(rt, "the sample plan's rules, sealed", "accepted 74")?;
    check(rt, "the sample plan", &sample::bytes(), "accepted 8 7")?;
    check(
        rt,
        "10 bytes, right mark, n = 0",
        &NO_RULES,
        "refused 2 at 0",
    )?;
    check(rt, "rule 0 = pair 0 0", &PAIR, "refused 12 at 0")?;
    check_empty(
        rt,
        "n = 16,384",
        &mut [0u8; 131082],
        16384,
        "accepted 16384 0",
    )?;
    check_empty(
        rt,
        "n = 16,385",
        &mut [0u8; 131090],
        16385,
        "refused 2 at 0",
    )?;
    check(rt, "label 255", &LABEL_255, "accepted 2 1")?;
    check(rt, "label 256", &LABEL_256, "refused 4 at 1")
}

// The forest: its counts, and its text in an output of full stops.
fn forest_cases(rt: &impl Print) -> io::Result<()> {
    measure(rt, "measure", "3 trees, 11 entries, 3 levels")?;
    spread(
        rt,
        "spread into 33 bytes",
        &mut [b'.'; 33],
        "accepted 33 (c(a)(b)(c(a)(b)(a)(b))(b))(a)(b)",
    )?;
    spread(
        rt,
        "spread into 32 bytes",
        &mut [b'.'; 32],
        "refused 11 at 0 ................................",
    )
}

// Walks from above the forest: the answers, "-" for nowhere, and the used cells.
fn walk_cases(rt: &impl Print) -> io::Result<()> {
    answers(
        rt,
        "the answers to afnnfnnnnununnn",
        &sample::bytes(),
        "afnnfnnnnununnn",
        "99 97 98 99 97 98 97 98 - 99 98 99 97 98 -",
    )?;
    answers(rt, "one empty rule, a and z", &EMPTY, "az", "- -")?;
    cells(
        rt,
        "after a",
        "a",
        "(1,0,7,0) (3,7,6,0) (2,6,0,0) (3,5,4,0)",
    )?;
    cells(
        rt,
        "after afnnfnn",
        "afnnfnn",
        "(1,0,7,0) (3,7,6,0) (2,6,0,0) (4,5,4,0) (2,1,0,0)",
    )?;
    cells(
        rt,
        "one more n",
        "afnnfnnn",
        "(1,0,7,0) (3,7,6,0) (2,6,0,0) (4,5,4,0) (1,2,2,0) (2,2,0,0)",
    )
}

fn main(rt: HostRuntime) -> io::Result<()> {
    format_cases(&rt)?;
    forest_cases(&rt)?;
    walk_cases(&rt)?;
    stroll(
        &rt,
        "the lines of stroll",
        "afnnfnnnnununnn",
        "a 99\nf 97\nn 98\nn 99\nf 97\nn 98\nn 97\nn 98\nn -\nu 99\nn 98\nu 99\nn 97\nn 98\nn -\n",
    )
}
