// Document 01, "Seal", and document 02, Note 2.
#![tactic(auto)]

ghost use Rattle.std.specs.Prelude.{ℕ, ◌*◌, ◌%◌, ◌≤◌, ◌≡◌, ◌&&◌, List, length, eqb};
ghost use Rattle.words.specs.Number.{word_count};
ghost use Rattle.record.specs.Format.{length_of_record, record_words};
ghost use Rattle.plan.specs.Check.{most_rules, in_limits};
ghost use Rattle.seal.specs.Seal.{format_for, is_length, given_count, sealed_up_to, sealed, output_as, sealed_output};

use judge::judge_rules;
use plan::Trailer;
use record::{Format, RuleRecords, copy_records};
use refusal::Refusal;

// Seal: the rule words as a plan without prefix. The answer comes first: refused, nothing is written.
pub fn seal(words: &[u8], record_length: u16, start: u16, out: &mut [u8]) -> Result<usize, Refusal>
    ensures { (result ≡ sealed words.now record_length start out.old)
        × (out.new ≡ sealed_output words.now record_length start out.old) }
{
    if !is_length(record_length) {
        return Err(Refusal::Magic);
    }
    let format = format_for(record_length);
    let answer = sealing(words, format, start, out.len());
    write_plan(words, format, start, out, answer);
    answer
}

// Is this the length of a record?
fn is_length(length: u16) -> bool
    ensures { result ≡ is_length length }
{
    let length = length as usize;
    (length == Format::NARROW_LENGTH) | (length == Format::WIDE_LENGTH)
}

// The format whose records have this length.
fn format_for(length: u16) -> Format
    ensures { result ≡ format_for length }
{
    if length as usize == Format::WIDE_LENGTH {
        Format::Wide
    } else {
        Format::Narrow
    }
}

// What seal writes, given its answer: the plan's bytes, or nothing.
fn write_plan(
    words: &[u8],
    format: Format,
    start: u16,
    out: &mut [u8],
    answer: Result<usize, Refusal>,
)
    requires { answer ≡ sealed_up_to most_rules format words.now start out.old }
    ensures { out.new ≡ output_as answer format words.now start out.old }
{
    let Ok(_) = answer else {
        return;
    };
    let n = given_count(words, format);
    copy_records(words, format, 0, n, out);
    Trailer::write(out, format, n as u16, start);
}

// The number of rules in a slice of rule words.
fn given_count(words: &[u8], format: Format) -> usize
    ensures { result ≡ given_count format words.now }
{
    words::word_count(words) / format.words()
}

// Are the words four to a rule, or five in a wide plan, and is the number of rules n in range?
fn counted(words: &[u8], format: Format, n: usize) -> bool
    ensures { result ≡ (eqb (word_count words.now % record_words format) 0 && in_limits most_rules n) }
{
    (words::word_count(words) % format.words() == 0)
        & ((1 <= n) & (n <= Trailer::MOST_RULES as usize))
}

// Seal's answer, for an output of room bytes.
fn sealing(words: &[u8], format: Format, start: u16, room: usize) -> Result<usize, Refusal>
    ensures { (out : List ℕ) → length out ≡ room → result ≡ sealed_up_to most_rules format words.now start out }
{
    let n = given_count(words, format);
    if !counted(words, format, n) {
        return Err(Refusal::Count);
    }
    let rules = RuleRecords {
        bytes: words,
        format,
        first: 0,
        n: n as u16,
    };
    judge_rules(&rules, start)?;
    let need = format.length() * n + Trailer::LENGTH;
    if room < need {
        return Err(Refusal::Room);
    }
    Ok(need)
}
