// The client's copy written (document 02, Note 6): of the variants of the rules in the rows of work, those that the copy's start reaches,
// and behind them the trailer.
#![tactic(auto)]

ghost use Rattle.copy_write.specs.Write.{Copyable, CopyWritten};

use plan::Trailer;
use record::Format;
use refusal::Refusal;

// The copy of the rules in the rows, at the front of out, and its length; the work is then cleared.
pub fn write_copy(work: &mut [u8], out: &mut [u8], n: u16, start: u16) -> Result<usize, Refusal>
    requires { Copyable n start work.old out.old }
    ensures { CopyWritten n start work.old out.old result work.new out.new }
{
    copy_rows::vary_rows(work, n);
    let whole = copy_rows::name(start, copy_rows::WHOLE);
    copy_marks::mark(work, n, whole);
    let m = copy_marks::write(work, out, n);
    let top = copy_marks::number_of(work, n, whole);
    Trailer::write(out, Format::Wide, m, top);
    work_rows::clear_work(work, n);
    Ok(Format::WIDE_LENGTH * (m as usize) + Trailer::LENGTH)
}
