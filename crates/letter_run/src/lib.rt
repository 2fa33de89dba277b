// A string of letters from a place (document 01, "Letters").
#![tactic(auto)]

ghost use Rattle.letter_moves.specs.Standing.{Stands};
ghost use Rattle.letter_run.specs.Ran.{Ran, Answerable};

use letter::{Letter, letter_of};
use letter_arrival::Standing;

// Letters in turn from a place, a word of answers each; gives the number of cells that they lead to.
pub fn run(
    rows: &[u8],
    cursor: &mut [u8],
    letters: &[u8],
    answers: &mut [u8],
    r: u16,
    from: Standing,
) -> usize
    requires { Stands r rows.now cursor.old from.used from.rule × Answerable letters.now answers.old }
    ensures { let cursor' = cursor.exit.now in
        let answers' = answers.exit.now in
        let rows = rows.entry.now in
        let letters = letters.entry.now in
        let cursor = cursor.entry.now in
        let answers = answers.entry.now in
        Ran r rows letters from cursor cursor' answers answers' result }
{
    let mut at = from;
    for (i, &byte) in letters.iter().enumerate() {
        let Some(letter) = letter_of(byte) else {
            return at.used;
        };
        let landing = letter_step::step(rows, cursor, at, r, letter);
        words::write32(answers, Letter::ANSWER_LENGTH * i, landing.answer);
        // By its fields: a copy of the struct would carry the unused bytes between them from letter to letter.
        let next = landing.at;
        at = Standing {
            used: next.used,
            rule: next.rule,
        };
    }
    at.used
}
