// The lines that stroll prints (document 01, "One sample plan").
#![tactic(auto)]

ghost use Rattle.std.specs.Prelude.{◌*◌, ◌≤◌, length};
ghost use Rattle.plan.specs.Check.{checked_up_to};
ghost use Rattle.forest.specs.Walk.{answer_length};
ghost use Rattle.stroll_line.specs.Lines.{line_length};
ghost use Rattle.stroll_output.specs.Stroll.{most_letters, most_strolled, check_printed, stroll_output};
ghost use Rattle.decimal.specs.Put.{Put};
ghost use Rattle.stroll_output.specs.Printed.{Accepted, Strollable, Strolled, Printed};

use letter::Letter;
use place_cells::Cell;
use plan::Checked;
use refusal::Refusal;

// Bytes of a plan, and letters, at most.
pub const MOST_PLAN: usize = 16384;

pub const MOST_LETTERS: usize = 4096;

// Bytes of a line: a letter, a space, eight digits, a line end.
const LINE: usize = 11;

// Bytes of output.
pub const MOST_OUTPUT: usize = LINE * MOST_LETTERS;

// Rules, at most.
pub const MOST_STROLLED: u16 = 1024;

// Bytes of work, cursor and answers for the most rules and letters.
pub const MOST_WORK: usize = work_rows::WORK_LENGTH * (MOST_STROLLED as usize);

pub const MOST_CURSOR: usize = Cell::LENGTH * Cell::A_RULE * (MOST_STROLLED as usize + 1);

const MOST_ANSWERS: usize = Letter::ANSWER_LENGTH * MOST_LETTERS;

// The walk from above the forest, in a work and a cursor large enough for any plan.
fn walk_above(plan: &[u8], letters: &[u8], answers: &mut [u8]) -> Result<(), Refusal>
    requires { Strollable plan.now letters.now × (answer_length * length letters.now ≤ length answers.old) }
    ensures { Strolled plan.now letters.now result answers.new }
{
    let mut work = [0u8; MOST_WORK];
    let mut cursor = [0u8; MOST_CURSOR];
    walk::walk(plan, &mut work, &mut cursor, letters, answers)
}

// What is printed of the walk.
fn print_walk(plan: &[u8], letters: &[u8], out: &mut [u8]) -> usize
    requires { Strollable plan.now letters.now × (line_length * most_letters ≤ length out.old) }
    ensures { Put (check_printed plan.now letters.now (checked_up_to most_strolled plan.now)) 0 out.old out.new result }
{
    let mut answers = [0u8; MOST_ANSWERS];
    match walk_above(plan, letters, &mut answers) {
        Ok(()) => stroll_line::put_lines(out, letters, &answers),
        Err(why) => stroll_line::put_refusal(out, why),
    }
}

// What is printed on an accepted plan.
fn stroll_letters(plan: &[u8], letters: &[u8], out: &mut [u8]) -> usize
    requires { Accepted plan.now × (line_length * most_letters ≤ length out.old) }
    ensures { Put (check_printed plan.now letters.now (checked_up_to most_strolled plan.now)) 0 out.old out.new result }
{
    if MOST_LETTERS < letters.len() {
        return stroll_line::put_refusal(out, Refusal::Lent);
    }
    print_walk(plan, letters, out)
}

// All that stroll prints for what it read of the plan's file and of standard input, at the front of the output; gives its length.
pub fn stroll(plan: &[u8], letters: &[u8], out: &mut [u8; MOST_OUTPUT]) -> usize
    ensures { Printed (stroll_output plan.now letters.now) out.old out.new result }
{
    if MOST_PLAN < plan.len() {
        return stroll_line::put_refusal(out, Refusal::Lent);
    }
    match plan::check_up_to(plan, MOST_STROLLED) {
        Ok(_) => stroll_letters(plan, letters, out),
        Err(why) => stroll_line::put_refusal(out, why),
    }
}
