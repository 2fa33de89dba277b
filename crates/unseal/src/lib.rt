// Document 01, "Unseal", and document 02, Note 2.
#![tactic(auto)]

ghost use Rattle.std.specs.Prelude.{◌*◌, ◌≡◌, leb};
ghost use Rattle.words.specs.Number.{word_count};
ghost use Rattle.record.specs.Format.{record_words};
ghost use Rattle.unseal.specs.Unseal.{unsealed, unsealed_output};

use plan::{Checked, Trailer, check};
use record::{Format, copy_records};
use refusal::Refusal;

// What unseal answers of an accepted plan: the record length that seal is told, and document 01's n and start.
#[derive(Clone, Copy)]
pub struct Unsealed {
    pub length: u16,
    pub n: u16,
    pub start: u16,
}

// Unseal: the rule words of a plan. Refused, nothing is written.
pub fn unseal(plan: &[u8], out: &mut [u8]) -> Result<Unsealed, Refusal>
    ensures { (result ≡ unsealed plan.now out.old)
        × (out.new ≡ unsealed_output plan.now out.old) }
{
    let Checked { n, start } = check(plan)?;
    let format = Trailer::format(plan);
    if !roomed(out, format, n) {
        return Err(Refusal::Room);
    }
    let length = format.length();
    let first = plan.len() - Trailer::LENGTH - length * (n as usize);
    copy_records(plan, format, first, n as usize, out);
    Ok(Unsealed {
        length: length as u16,
        n,
        start,
    })
}

// Has the output the words of n rules?
fn roomed(out: &[u8], format: Format, n: u16) -> bool
    ensures { result ≡ leb (record_words format * n) (word_count out.now) }
{
    format.words() * (n as usize) <= words::word_count(out)
}
