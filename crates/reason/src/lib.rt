// Why a key does nothing (document 02, Note 11): for a plan, a cursor and one letter, which of the reasons holds. The cursor is only read.
#![tactic(auto)]

ghost use Rattle.std.specs.Prelude.{◌≡◌, ◌*◌};
ghost use Rattle.plan.specs.Check.{rules_of};
ghost use Rattle.forest.specs.Letter.{letter_of};
ghost use Rattle.forest.specs.Walk.{place_judged};
ghost use Rattle.letter.specs.Letter.{move_of};
ghost use Rattle.letter_moves.specs.Standing.{rules_kept};
ghost use Rattle.work_rows.specs.Rows.{work_length, Within};
ghost use Rattle.place_open.specs.Open.{Openable};
ghost use Rattle.walk_lent.specs.Judged.{Judged};
ghost use Rattle.reasons.specs.Outcome.{reasoned_at, reasoned_by, reasoned, reasoned_work};

use letter::Letter;
use place_open::Opened;
use plan::Checked;
use reasons::Reason;
use refusal::Refusal;
use work_rows::Row;

// The reason of a letter from the stored place, on the rows of an accepted plan's rules: a place that is none is turned down.
fn from_place(
    rows: &[u8],
    cursor: &[u8],
    letter: Letter,
    accepted: Checked,
) -> Result<Reason, Refusal>
    requires { Openable accepted.start accepted.n rows.now cursor.now }
    ensures { let rules = rules_kept rows.now in
        result ≡ reasoned_at rules (move_of letter) (place_judged rules accepted.n accepted.start cursor.now) }
{
    let Opened { walked, at } = place_open::open(rows, cursor, accepted)?;
    Ok(letter_reason::reason_at(rows, cursor, at, walked, letter))
}

// The reason of a letter, past 8: the rules go to the rows of work.
fn of_letter(
    plan: &[u8],
    work: &mut [u8],
    cursor: &[u8],
    letter: Letter,
    accepted: Checked,
) -> Result<Reason, Refusal>
    requires { Judged plan.now accepted.n accepted.start work.old cursor.now }
    ensures { let work' = work.new in
        let rules = rules_of plan.now in
        (result ≡ reasoned_at rules (move_of letter) (place_judged rules accepted.n accepted.start cursor.now))
        × Within 0 (work_length * accepted.n) work.old work' }
{
    facts_load::load(plan, work, accepted.n);
    let rows = &work[..Row::LENGTH * (accepted.n as usize)];
    from_place(rows, cursor, letter, accepted)
}

// The reason of a byte, past 8: one that is no letter is turned down, before the place is.
fn of_byte(
    plan: &[u8],
    work: &mut [u8],
    cursor: &[u8],
    byte: u8,
    accepted: Checked,
) -> Result<Reason, Refusal>
    requires { Judged plan.now accepted.n accepted.start work.old cursor.now }
    ensures { let work' = work.new in
        let rules = rules_of plan.now in
        (result ≡ reasoned_by rules (letter_of byte) (place_judged rules accepted.n accepted.start cursor.now))
        × Within 0 (work_length * accepted.n) work.old work' }
{
    match letter::letter_of(byte) {
        Some(letter) => of_letter(plan, work, cursor, letter, accepted),
        None => Err(Refusal::Letter(0)),
    }
}

// Why a letter moves or doesn't from the place that a cursor holds, or why it is turned down: all that is lent is judged, the rules are
// loaded, the place is opened and the letter decided on it, and the work is cleared.
pub fn reason(plan: &[u8], work: &mut [u8], cursor: &[u8], byte: u8) -> Result<Reason, Refusal>
    ensures { let work' = work.exit.now in
        let plan = plan.entry.now in
        let work = work.entry.now in
        let cursor = cursor.entry.now in
        (result ≡ reasoned plan work cursor byte) × (work' ≡ reasoned_work plan work cursor) }
{
    let accepted = walk_lent::judge(plan, work, cursor)?;
    let answer = of_byte(plan, work, cursor, byte, accepted);
    work_rows::clear_work(work, accepted.n);
    answer
}
