// Stroll (document 01, "One sample plan"): walks the plan in file plan.bin by the letters on standard input, from above the
// forest, and prints a line for each. What it prints is the contract of stroll_output::stroll; here it is read and written.
#![tactic(auto)]

use std::io;
use std::io::Write;
use stroll_output::{MOST_LETTERS, MOST_OUTPUT, MOST_PLAN};

// Each input has room for one byte more than is allowed, which tells that it is too long.
fn main(rt: HostRuntime) -> io::Result<()> {
    let mut plan = [0u8; MOST_PLAN + 1];
    let mut letters = [0u8; MOST_LETTERS + 1];
    let mut out = [0u8; MOST_OUTPUT];
    let plan_length = program_io::read_file(&rt, "plan.bin", &mut plan);
    let letters_length = program_io::read_full(&mut rt.stdin(), &mut letters);
    let length = stroll_output::stroll(&plan[..plan_length], &letters[..letters_length], &mut out);
    // Of `Write`: the method of that name that `Print` has gives up where writing is interrupted again and again.
    Write::write_all(&mut rt.stdout(), &out[..length])
}
