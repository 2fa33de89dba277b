// Listing (document 02, Note 14): prints, for bench trials, every plan of up to three rules with labels 0, one a line in hexadecimal. What
// it prints is plan_list's `list_output`; which plans these are is plan_list's `members`.
#![tactic(auto)]

ghost use Rattle.std.specs.Prelude.{◌≡◌, [], ◌+◌, ◌*◌, ◌≤◌, ◌<◌, length, drop};
ghost use Rattle.decimal.specs.Put.{Put, Next};
ghost use Rattle.plan.specs.Check.{checked};
ghost use Rattle.plan_list.specs.Listed.{three_rules, candidates, rules_at, place_of, plain as Listed·plain, wordless as Listed·wordless, is_accepted};
ghost use Rattle.plan_list.specs.Lines.{hex_line, list_output};
ghost use Rattle.listing.specs.Left.{Left, Candidate};

use program_io::Printer;
use std::io;
use std::rt::Stdout;

// Candidates, and the first that have two rules and three.
const CANDIDATES: usize = 7059;

const TWO_RULES: usize = 3;

const THREE_RULES: usize = 147;

// Bytes of a plan of three rules, and of its line: two digits for each, and a line end.
const PLAN: usize = 34;

const LINE: usize = 69;

// What ends a line.
const LINE_END: u8 = 10;

// Bytes printed: those that come next in the program's output. Nothing else here writes.
fn emit(printer: &mut Printer<Stdout>, bytes: &[u8])
    requires { Next list_output printer.old.printed bytes.now × (printer.old.printed + length bytes.now ≤ 1000000) }
    ensures { printer.new.printed ≡ printer.old.printed + length bytes.now }
{
    printer.print(bytes);
}

// How many rules a candidate has.
fn rules_at(i: usize) -> u8
    ensures { (result ≡ rules_at i) × (result ≤ 3) }
{
    if i < TWO_RULES {
        return 1;
    }
    if i < THREE_RULES {
        return 2;
    }
    3
}

// Its place among those with as many rules.
fn place_of(i: usize) -> usize
    requires { i < candidates }
    ensures { (result ≡ place_of i) × (result < 6912) }
{
    if i < TWO_RULES {
        return i;
    }
    if i < THREE_RULES {
        return i - TWO_RULES;
    }
    i - THREE_RULES
}

// The empty rule, two rules by their numbers, and the trailer of n rules.
fn three_rules(n: u8, start: u8, a: u8, b: u8) -> [u8; PLAN]
    requires { n ≤ 3 }
    ensures { result ≡ three_rules n start a b }
{
    let mut plan = [0u8; PLAN];
    plan[8] = a / 8;
    plan[10] = a / 4 % 2;
    plan[12] = a / 2 % 2;
    plan[14] = a % 2;
    plan[16] = b / 8;
    plan[18] = b / 4 % 2;
    plan[20] = b / 2 % 2;
    plan[22] = b % 2;
    plan[24] = n;
    plan[26] = start;
    plan[28] = 8 * n;
    plan[32] = 0x6d;
    plan[33] = 0x70;
    plan
}

// A rule by its number has no label but 0.
fn plain(x: u8) -> bool
    ensures { result ≡ Listed·plain x }
{
    !(((x / 8 == 2) | (x / 8 == 4)) & (x / 4 % 2 == 1))
}

// A rule by its number has no word but 0.
fn wordless(x: u8) -> bool
    ensures { result ≡ Listed·wordless x }
{
    x % 8 == 0
}

// Check accepts the plan.
fn accepted(plan: &[u8]) -> bool
    ensures { result ≡ is_accepted (checked plan.now) }
{
    plan::check(plan).is_ok()
}

// A plan's line, at the front of the output: two digits a byte, in lower case.
fn put_line(out: &mut [u8], plan: &[u8]) -> usize
    requires { length (hex_line plan.now) ≤ length out.old }
    ensures { Put (hex_line plan.now) 0 out.old out.new result }
{
    let end = 2 * plan.len();
    hex::encode_to_slice(plan, &mut out[..end]).unwrap();
    out[end] = LINE_END;
    end + 1
}

// A candidate with labels 0 alone: printed if check accepts it.
fn list_plan(printer: &mut Printer<Stdout>, i: usize, plan: &[u8])
    requires { Left i printer.old.printed × Candidate i plan.now }
    ensures { Left (i + 1) printer.new.printed }
{
    if !accepted(plan) {
        return;
    }
    let mut out = [0u8; LINE];
    let end = put_line(&mut out, plan);
    emit(printer, &out[..end]);
}

// A candidate by its number.
fn list_one(printer: &mut Printer<Stdout>, i: usize)
    requires { Left i printer.old.printed × (i < candidates) }
    ensures { Left (i + 1) printer.new.printed }
{
    let j = place_of(i);
    let a = (j / 3 / 48) as u8;
    let b = (j / 3 % 48) as u8;
    if !(wordless(a) & plain(b)) {
        return;
    }
    let n = rules_at(i);
    let plan = three_rules(n, (j % 3) as u8, a, b);
    let first = 24 - 8 * (n as usize);
    list_plan(printer, i, &plan[first..]);
}

// All of them, in order; gives the printer that printed them, after which nothing is left.
fn list(output: Stdout) -> Printer<Stdout>
    ensures { drop result.printed list_output ≡ [] }
{
    let mut printer = Printer::new(output);
    for i in 0..CANDIDATES {
        list_one(&mut printer, i);
    }
    printer
}

fn main(rt: HostRuntime) -> io::Result<()> {
    list(rt.stdout()).gone
}
