// Letters from the stored place, on the rows of the rules: the place is judged, the letters run, and the new place is stored.
#![tactic(auto)]

ghost use Rattle.forest.specs.Walk.{place_judged};
ghost use Rattle.letter_moves.specs.Standing.{rules_kept};
ghost use Rattle.walk_place.specs.Travel.{Travels, Walks};

use place_open::Opened;
use place_store::Head;
use plan::Checked;
use refusal::Refusal;

// Letters from the stored place, on the rows of the plan's rules: a place that is none is turned down.
pub fn travel(
    rows: &[u8],
    cursor: &mut [u8],
    letters: &[u8],
    answers: &mut [u8],
    accepted: Checked,
) -> Result<(), Refusal>
    requires { Travels accepted.start accepted.n rows.now cursor.old letters.now answers.old }
    ensures { let cursor' = cursor.exit.now in
        let answers' = answers.exit.now in
        let rows = rows.entry.now in
        let cursor = cursor.entry.now in
        let letters = letters.entry.now in
        let answers = answers.entry.now in
        Walks (rules_kept rows) (place_judged (rules_kept rows) accepted.n accepted.start cursor) letters cursor cursor' answers answers' result }
{
    let Opened { walked, at } = place_open::open(rows, cursor, accepted)?;
    let head = Head::read(cursor);
    row_links::fill(rows, cursor, at.used);
    let used = letter_run::run(rows, cursor, letters, answers, walked, at);
    place_store::store(cursor, used, accepted.n, head.word);
    Ok(())
}
