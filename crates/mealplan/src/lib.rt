// The C interface: each function takes byte slices and numbers apart for one of the operations and gives its answer as numbers.
// include/mealplan.h says the same to a C programmer.
#![tactic(auto)]

ghost use Rattle.std.specs.Prelude.{◌≡◌};
ghost use Rattle.plan.specs.Check.{checked};
ghost use Rattle.seal.specs.Seal.{sealed, sealed_output};
ghost use Rattle.unseal.specs.Unseal.{unsealed, unsealed_output};
ghost use Rattle.forest.specs.Outcome.{measured, measured_work, spread, spread_output};
ghost use Rattle.forest.specs.Compare.{compare, compared_work};
ghost use Rattle.demand.specs.Calls.{walk_of, lends};
ghost use Rattle.reasons.specs.Outcome.{reasoned, reasoned_work};
ghost use Rattle.label_rows.specs.Class.{classed};
ghost use Rattle.grams.specs.Grams.{weighed, weighed_work};
ghost use Rattle.c_result.specs.Interface.{result_number, result_position, behind};
ghost use Rattle.c_result.specs.Interface.{checked_gives, written_gives, unsealed_gives, measured_gives};
ghost use Rattle.c_result.specs.Interface.{walked_gives, compared_gives, classed_gives, weighed_gives, reasoned_gives};
ghost use Rattle.mealplan.specs.Given.{CopyGiven};

use label_rows::LabelRow;

// Check.
#[unsafe(no_mangle)]
pub extern "C" fn plan_check(plan: &[u8], n: &mut u16, start: &mut u16, position: &mut u64) -> u32
    ensures { let given = checked_gives (checked plan.now) in
        (result ≡ result_number given)
        × (n.new ≡ behind 0 given n.old)
        × (start.new ≡ behind 1 given start.old)
        × (position.new ≡ result_position given) }
{
    c_result::give_checked(plan::check(plan), n, start, position)
}

// Seal.
#[unsafe(no_mangle)]
pub extern "C" fn plan_seal(
    words: &[u8],
    record_length: u16,
    start: u16,
    out: &mut [u8],
    written: &mut u64,
    position: &mut u64,
) -> u32
    ensures { let given = written_gives (sealed words.now record_length start out.old) in
        (result ≡ result_number given)
        × (out.new ≡ sealed_output words.now record_length start out.old)
        × (written.new ≡ behind 0 given written.old)
        × (position.new ≡ result_position given) }
{
    let answer = seal::seal(words, record_length, start, out);
    c_result::give_written(answer, written, position)
}

// Unseal.
#[unsafe(no_mangle)]
pub extern "C" fn plan_unseal(
    plan: &[u8],
    out: &mut [u8],
    record_length: &mut u16,
    n: &mut u16,
    start: &mut u16,
    position: &mut u64,
) -> u32
    ensures { let given = unsealed_gives (unsealed plan.now out.old) in
        (result ≡ result_number given)
        × (out.new ≡ unsealed_output plan.now out.old)
        × (record_length.new ≡ behind 0 given record_length.old)
        × (n.new ≡ behind 1 given n.old)
        × (start.new ≡ behind 2 given start.old)
        × (position.new ≡ result_position given) }
{
    c_result::give_unsealed(unseal::unseal(plan, out), record_length, n, start, position)
}

// Measure.
#[unsafe(no_mangle)]
pub extern "C" fn plan_measure(
    plan: &[u8],
    work: &mut [u8],
    trees: &mut u64,
    entries: &mut u64,
    levels: &mut u64,
    position: &mut u64,
) -> u32
    ensures { let given = measured_gives (measured plan.now work.old) in
        (result ≡ result_number given)
        × (work.new ≡ measured_work plan.now work.old)
        × (trees.new ≡ behind 0 given trees.old)
        × (entries.new ≡ behind 1 given entries.old)
        × (levels.new ≡ behind 2 given levels.old)
        × (position.new ≡ result_position given) }
{
    c_result::give_measured(
        measure::measure(plan, work),
        trees,
        entries,
        levels,
        position,
    )
}

// Spread.
#[unsafe(no_mangle)]
pub extern "C" fn plan_spread(
    plan: &[u8],
    work: &mut [u8],
    out: &mut [u8],
    written: &mut u64,
    position: &mut u64,
) -> u32
    ensures { let given = written_gives (spread plan.now work.old out.old) in
        (result ≡ result_number given)
        × (work.new ≡ measured_work plan.now work.old)
        × (out.new ≡ spread_output plan.now work.old out.old)
        × (written.new ≡ behind 0 given written.old)
        × (position.new ≡ result_position given) }
{
    c_result::give_written(spread::spread(plan, work, out), written, position)
}

// Walk.
#[unsafe(no_mangle)]
pub extern "C" fn plan_walk(
    plan: &[u8],
    work: &mut [u8],
    cursor: &mut [u8],
    letters: &[u8],
    answers: &mut [u8],
    position: &mut u64,
) -> u32
    ensures { let l = walk_of (lends plan.now work.old cursor.old letters.now answers.old) in
        let given = walked_gives l.answer in
        (result ≡ result_number given)
        × (work.new ≡ l.work)
        × (cursor.new ≡ l.cursor)
        × (answers.new ≡ l.answers)
        × (position.new ≡ result_position given) }
{
    c_result::give_walked(walk::walk(plan, work, cursor, letters, answers), position)
}

// Compare.
#[unsafe(no_mangle)]
pub extern "C" fn plan_compare(
    plan: &[u8],
    work: &mut [u8],
    first: &[u8],
    second: &[u8],
    budget: u32,
    verdict: &mut u32,
    count: &mut u32,
    position: &mut u64,
) -> u32
    ensures { let given = compared_gives (compare plan.now work.old first.now second.now budget) in
        (result ≡ result_number given)
        × (work.new ≡ compared_work plan.now work.old first.now second.now)
        × (verdict.new ≡ behind 0 given verdict.old)
        × (count.new ≡ behind 1 given count.old)
        × (position.new ≡ result_position given) }
{
    let answer = compare::compare(plan, work, first, second, budget);
    c_result::give_compared(answer, verdict, count, position)
}

// The class of a label by a list of rows.
#[unsafe(no_mangle)]
pub extern "C" fn plan_class(
    rows: &[LabelRow],
    label: u32,
    class: &mut u16,
    position: &mut u64,
) -> u32
    ensures { let given = classed_gives (classed rows.now label) in
        (result ≡ result_number given)
        × (class.new ≡ behind 0 given class.old)
        × (position.new ≡ result_position given) }
{
    c_result::give_classed(label_rows::class_of(rows, label), class, position)
}

// The client's copy.
#[unsafe(no_mangle)]
pub extern "C" fn plan_copy(
    plan: &[u8],
    rows: &[LabelRow],
    class: u16,
    work: &mut [u8],
    out: &mut [u8],
    written: &mut u64,
    position: &mut u64,
) -> u32
    ensures { CopyGiven plan.now rows.now class work.old work.new out.old out.new written.old result written.new position.new }
{
    let copied = copy::copy(plan, rows, class, work, out);
    c_result::give_written(copied, written, position)
}

// The grams of a plan.
#[unsafe(no_mangle)]
pub extern "C" fn plan_grams(
    plan: &[u8],
    rows: &[LabelRow],
    work: &mut [u8],
    grams: &mut u64,
    position: &mut u64,
) -> u32
    ensures { let given = weighed_gives (weighed plan.now rows.now work.old) in
        (result ≡ result_number given)
        × (work.new ≡ weighed_work plan.now rows.now work.old)
        × (grams.new ≡ behind 0 given grams.old)
        × (position.new ≡ result_position given) }
{
    let weighed = grams::grams(plan, rows, work);
    c_result::give_weighed(weighed, grams, position)
}

// Why a letter moves or doesn't.
#[unsafe(no_mangle)]
pub extern "C" fn plan_reason(
    plan: &[u8],
    work: &mut [u8],
    cursor: &[u8],
    letter: u8,
    reason: &mut u32,
    position: &mut u64,
) -> u32
    ensures { let given = reasoned_gives (reasoned plan.now work.old cursor.now letter) in
        (result ≡ result_number given)
        × (work.new ≡ reasoned_work plan.now work.old cursor.now)
        × (reason.new ≡ behind 0 given reason.old)
        × (position.new ≡ result_position given) }
{
    let answer = reason::reason(plan, work, cursor, letter);
    c_result::give_reasoned(answer, reason, position)
}
