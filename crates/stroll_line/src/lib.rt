// The lines of letters and of a refusal (document 01, "One sample plan"), written into a lent slice.
#![tactic(auto)]

ghost use Rattle.std.specs.Prelude.{◌*◌, ◌≤◌, length};
ghost use Rattle.forest.specs.Walk.{answer_length};
ghost use Rattle.stroll_line.specs.Lines.{shown, line, lines, refused_line, refused_length};
ghost use Rattle.decimal.specs.Put.{Put};
ghost use Rattle.decimal.specs.Text.{Room, Pushed};
ghost use Rattle.stroll_line.specs.Said.{answer_of, answers_from};

use decimal::Text;
use letter::Letter;
use refusal::Refusal;

// What ends a line.
pub const LINE_END: u8 = 10;

// The line of a refusal, at the front of the output; gives its length.
pub fn put_refusal(out: &mut [u8], why: Refusal) -> usize
    requires { refused_length ≤ length out.old }
    ensures { Put (refused_line why) 0 out.old out.new result }
{
    let mut text = Text::new(out);
    text.push_bytes(b"refused ");
    text.push_decimal(why.number() as u64);
    text.push_bytes(b" at ");
    text.push_decimal(why.position());
    text.push(LINE_END);
    text.len()
}

// A label in decimal, or "-" for nowhere.
fn put_answer(text: &mut Text, word: u32)
    requires { Room text.old (length (shown (answer_of word))) }
    ensures { Pushed (shown (answer_of word)) text.old text.new }
{
    if word == Letter::NOWHERE {
        text.push(b'-');
    } else {
        text.push_decimal(word as u64);
    }
}

// A letter's line.
fn put_line(text: &mut Text, letter: u8, word: u32)
    requires { Room text.old (length (line letter (answer_of word))) }
    ensures { Pushed (line letter (answer_of word)) text.old text.new }
{
    text.push(letter);
    text.push(b' ');
    put_answer(text, word);
    text.push(LINE_END);
}

// A line for each letter and its word of answers, at the front of the output; gives their length.
pub fn put_lines(out: &mut [u8], letters: &[u8], answers: &[u8]) -> usize
    requires { (answer_length * length letters.now ≤ length answers.now)
        × (length (lines letters.now (answers_from (length letters.now) answers.now 0)) ≤ length out.old) }
    ensures { Put (lines letters.now (answers_from (length letters.now) answers.now 0)) 0 out.old out.new result }
{
    let mut text = Text::new(out);
    for (i, &letter) in letters.iter().enumerate() {
        let word = words::read32(answers, Letter::ANSWER_LENGTH * i);
        put_line(&mut text, letter, word);
    }
    text.len()
}
