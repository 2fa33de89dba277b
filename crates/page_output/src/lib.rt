// What pages prints (document 02, Note 13): a log judged whole, and a page of it.
#![tactic(auto)]

ghost use Rattle.std.specs.Prelude.{◌≡◌, ℕ, ◌*◌, ◌≤◌, length};
ghost use Rattle.plan.specs.Check.{rules_of};
ghost use Rattle.forest.specs.Forest.{forest};
ghost use Rattle.forest.specs.Reference.{Path, answers, path_after};
ghost use Rattle.forest.specs.Walk.{letters_of};
ghost use Rattle.decimal.specs.Put.{Put};
ghost use Rattle.page_line.specs.Page.{line_bytes, page_lines, page_text};
ghost use Rattle.page_output.specs.Pages.{log_judged, pages_judged};
ghost use Rattle.page_output.specs.Walking.{part_left, Walking, Ready};

use letter::Letter;
use page_line::PAGE_LINES;
use refusal::Refusal;
use stroll_output::{MOST_PLAN, MOST_STROLLED, MOST_WORK};

// Letters of a log, at most.
pub const MOST_LOGGED: usize = 999999;

// Bytes of the answers of a page.
const PAGE_ANSWERS: usize = Letter::ANSWER_LENGTH * PAGE_LINES;

// The log, on an accepted plan.
fn judge_log(log: &[u8]) -> Result<(), Refusal>
    ensures { result ≡ log_judged log.now }
{
    if MOST_LOGGED < log.len() {
        return Err(Refusal::Lent);
    }
    match walk_lent::first_other(log) {
        Some(i) => Err(Refusal::Letter(i)),
        None => Ok(()),
    }
}

// The plan and the log, judged before anything is printed.
pub fn judge(plan: &[u8], log: &[u8]) -> Result<(), Refusal>
    ensures { result ≡ pages_judged plan.now log.now }
{
    if MOST_PLAN < plan.len() {
        return Err(Refusal::Lent);
    }
    plan::check_up_to(plan, MOST_STROLLED)?;
    judge_log(log)
}

// The walk by a part of the log, in a work of its own.
fn walk_part(plan: &[u8], cursor: &mut [u8], letters: &[u8], given: &mut [u8])
    ensures { (cursor.new ≡ (part_left plan.now cursor.old letters.now given.old).cursor) × (given.new ≡ (part_left plan.now cursor.old letters.now given.old).answers) }
{
    let mut work = [0u8; MOST_WORK];
    let _ = walk::walk(plan, &mut work, cursor, letters, given);
}

// The page of at most fifty letters, walked from where the cursor stands, at the front of the output; the cursor then stands behind them.
pub fn page(plan: &[u8], cursor: &mut [u8], first: u64, letters: &[u8], out: &mut [u8]) -> usize
    requires { Ready plan.now cursor.old first letters.now × (line_bytes * page_lines ≤ length out.old) }
    ensures { ((n start : ℕ) (path : Path) → Walking plan.now n start cursor.old path
        → Put (page_text first letters.now (answers (forest (rules_of plan.now) start) (letters_of letters.now) path)) 0 out.old out.new result
        × Walking plan.now n start cursor.new (path_after (forest (rules_of plan.now) start) (letters_of letters.now) path)) }
{
    let mut given = [0u8; PAGE_ANSWERS];
    walk_part(plan, cursor, letters, &mut given);
    page_line::put_page(out, first, letters, &given)
}
