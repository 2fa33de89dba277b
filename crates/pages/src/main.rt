// Pages (document 02, Note 13): walks the plan in file plan.bin by the log of letters in file keys.log, from above the forest, and prints it
// on pages. What it prints is page_output's `pages_output`; here it is read, and written page by page.
#![tactic(auto)]

ghost use Rattle.std.specs.Prelude.{◌≡◌, [], ◌+◌, ◌≤◌, length, drop};
ghost use Rattle.decimal.specs.Put.{Next};
ghost use Rattle.stroll_line.specs.Lines.{refused_line};
ghost use Rattle.page_output.specs.Pages.{pages_output};
ghost use Rattle.page_output.specs.Walking.{Printable};

use page_line::{PAGE_BYTES, PAGE_LINES};
use page_output::MOST_LOGGED;
use program_io::Printer;
use refusal::Refusal;
use std::io;
use std::rt::Stdout;
use stroll_output::{MOST_CURSOR, MOST_PLAN};

// Bytes of a refusal's line, at most.
const REFUSAL: usize = 43;

// Bytes printed: those that come next in the program's output. Nothing else here writes.
fn emit(printer: &mut Printer<Stdout>, plan: &[u8], log: &[u8], bytes: &[u8])
    requires { Next (pages_output plan.now log.now) printer.old.printed bytes.now × (printer.old.printed + length bytes.now ≤ 2050000000) }
    ensures { printer.new.printed ≡ printer.old.printed + length bytes.now }
{
    printer.print(bytes);
}

// The pages of a log that is not refused; gives the printer that printed them, after which nothing is left.
fn print_pages(output: Stdout, plan: &[u8], log: &[u8]) -> Printer<Stdout>
    requires { Printable plan.now log.now }
    ensures { drop result.printed (pages_output plan.now log.now) ≡ [] }
{
    let mut printer = Printer::new(output);
    let mut cursor = [0u8; MOST_CURSOR];
    let mut out = [0u8; PAGE_BYTES];
    for (i, letters) in log.chunks(PAGE_LINES).enumerate() {
        let first = PAGE_LINES * i + 1;
        page_output::page(plan, &mut cursor, first as u64, letters, &mut out);
        emit(&mut printer, plan, log, &out);
    }
    printer
}

// The line of a refusal; gives the printer that printed it.
fn print_refusal(output: Stdout, plan: &[u8], log: &[u8], why: Refusal) -> Printer<Stdout>
    requires { pages_output plan.now log.now ≡ refused_line why }
    ensures { drop result.printed (pages_output plan.now log.now) ≡ [] }
{
    let mut printer = Printer::new(output);
    let mut out = [0u8; REFUSAL];
    let length = stroll_line::put_refusal(&mut out, why);
    emit(&mut printer, plan, log, &out[..length]);
    printer
}

// The line of a refusal, or the pages; gives the printer that printed them, after which nothing is left.
fn print(output: Stdout, plan: &[u8], log: &[u8]) -> Printer<Stdout>
    ensures { drop result.printed (pages_output plan.now log.now) ≡ [] }
{
    match page_output::judge(plan, log) {
        Ok(()) => print_pages(output, plan, log),
        Err(why) => print_refusal(output, plan, log, why),
    }
}

// Each input has room for one byte more than is allowed, which tells that it is too long.
fn main(rt: HostRuntime) -> io::Result<()> {
    let mut plan = [0u8; MOST_PLAN + 1];
    let mut log = [0u8; MOST_LOGGED + 1];
    let plan_length = program_io::read_file(&rt, "plan.bin", &mut plan);
    let log_length = program_io::read_file(&rt, "keys.log", &mut log);
    print(rt.stdout(), &plan[..plan_length], &log[..log_length]).gone
}
