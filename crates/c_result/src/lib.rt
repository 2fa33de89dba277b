// Answers given as numbers: each function gives the result for an answer and writes behind pointers what belongs there.
#![tactic(auto)]

ghost use Rattle.std.specs.Prelude.{◌≡◌, ℕ, List};
ghost use Rattle.c_result.specs.Interface.{result_number, result_position, behind, given_by};
ghost use Rattle.c_result.specs.Interface.{checked_gives, written_gives, unsealed_gives, measured_gives};
ghost use Rattle.c_result.specs.Interface.{walked_gives, compared_gives, classed_gives, weighed_gives, reasoned_gives};

use forest::{Compared, Measured};
use plan::Checked;
use reasons::Reason;
use refusal::Refusal;
use unseal::Unsealed;

// The result and the position of an answer, whatever it gives when it is accepted: 0, or the refusal's.
fn give<T: Copy>(answer: Result<T, Refusal>, position: &mut u64) -> u32
    ensures { (shown : T → List ℕ)
        → (result ≡ result_number (given_by shown answer)) × (position.new ≡ result_position (given_by shown answer)) }
{
    match answer {
        Ok(_) => {
            *position = 0;
            0
        }
        Err(refusal) => {
            *position = refusal.position();
            refusal.number()
        }
    }
}

// What a checked answer leaves behind the pointers, and the result.
pub fn give_checked(
    answer: Result<Checked, Refusal>,
    n: &mut u16,
    start: &mut u16,
    position: &mut u64,
) -> u32
    ensures { let given = checked_gives answer in
        (result ≡ result_number given)
        × (n.new ≡ behind 0 given n.old)
        × (start.new ≡ behind 1 given start.old)
        × (position.new ≡ result_position given) }
{
    if let Ok(checked) = answer {
        *n = checked.n;
        *start = checked.start;
    }
    give(answer, position)
}

// What an unsealed answer leaves behind the pointers, and the result.
pub fn give_unsealed(
    answer: Result<Unsealed, Refusal>,
    record_length: &mut u16,
    n: &mut u16,
    start: &mut u16,
    position: &mut u64,
) -> u32
    ensures { let given = unsealed_gives answer in
        (result ≡ result_number given)
        × (record_length.new ≡ behind 0 given record_length.old)
        × (n.new ≡ behind 1 given n.old)
        × (start.new ≡ behind 2 given start.old)
        × (position.new ≡ result_position given) }
{
    if let Ok(unsealed) = answer {
        *record_length = unsealed.length;
        *n = unsealed.n;
        *start = unsealed.start;
    }
    give(answer, position)
}

// The same for an answer that gives a length.
pub fn give_written(answer: Result<usize, Refusal>, written: &mut u64, position: &mut u64) -> u32
    ensures { let given = written_gives answer in
        (result ≡ result_number given)
        × (written.new ≡ behind 0 given written.old)
        × (position.new ≡ result_position given) }
{
    if let Ok(length) = answer {
        *written = length as u64;
    }
    give(answer, position)
}

// What a measured answer leaves behind the pointers, and the result.
pub fn give_measured(
    answer: Result<Measured, Refusal>,
    trees: &mut u64,
    entries: &mut u64,
    levels: &mut u64,
    position: &mut u64,
) -> u32
    ensures { let given = measured_gives answer in
        (result ≡ result_number given)
        × (trees.new ≡ behind 0 given trees.old)
        × (entries.new ≡ behind 1 given entries.old)
        × (levels.new ≡ behind 2 given levels.old)
        × (position.new ≡ result_position given) }
{
    if let Ok(measured) = answer {
        *trees = measured.trees;
        *entries = measured.entries;
        *levels = measured.levels;
    }
    give(answer, position)
}

// What a walked answer leaves behind the pointer, and the result.
pub fn give_walked(answer: Result<(), Refusal>, position: &mut u64) -> u32
    ensures { let given = walked_gives answer in
        (result ≡ result_number given) × (position.new ≡ result_position given) }
{
    give(answer, position)
}

// The numbers of the verdicts.
const SAME: u32 = 0;

const DIFFER: u32 = 1;

const SPENT: u32 = 2;

// What a compared answer leaves behind the pointers, and the result.
pub fn give_compared(
    answer: Result<Compared, Refusal>,
    verdict: &mut u32,
    count: &mut u32,
    position: &mut u64,
) -> u32
    ensures { let given = compared_gives answer in
        (result ≡ result_number given)
        × (verdict.new ≡ behind 0 given verdict.old)
        × (count.new ≡ behind 1 given count.old)
        × (position.new ≡ result_position given) }
{
    if let Ok(compared) = answer {
        let (number, pairs) = match compared {
            Compared::Same(pairs) => (SAME, pairs),
            Compared::Differ(place) => (DIFFER, place),
            Compared::Spent(budget) => (SPENT, budget),
        };
        *verdict = number;
        *count = pairs;
    }
    give(answer, position)
}

// What the answer for a label leaves behind the pointers, and the result.
pub fn give_classed(answer: Result<u16, Refusal>, class: &mut u16, position: &mut u64) -> u32
    ensures { let given = classed_gives answer in
        (result ≡ result_number given)
        × (class.new ≡ behind 0 given class.old)
        × (position.new ≡ result_position given) }
{
    if let Ok(found) = answer {
        *class = found;
    }
    give(answer, position)
}

// What the answer for a plan's grams leaves behind the pointers, and the result.
pub fn give_weighed(answer: Result<u64, Refusal>, grams: &mut u64, position: &mut u64) -> u32
    ensures { let given = weighed_gives answer in
        (result ≡ result_number given)
        × (grams.new ≡ behind 0 given grams.old)
        × (position.new ≡ result_position given) }
{
    if let Ok(sum) = answer {
        *grams = sum;
    }
    give(answer, position)
}

// What the answer for one letter leaves behind the pointers, and the result.
pub fn give_reasoned(answer: Result<Reason, Refusal>, reason: &mut u32, position: &mut u64) -> u32
    ensures { let given = reasoned_gives answer in
        (result ≡ result_number given)
        × (reason.new ≡ behind 0 given reason.old)
        × (position.new ≡ result_position given) }
{
    if let Ok(why) = answer {
        *reason = why.number();
    }
    give(answer, position)
}
