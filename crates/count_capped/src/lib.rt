// A count that stops at 2^64, and counts in columns of the rows of work.
#![tactic(auto)]

ghost use Rattle.std.specs.Prelude.{◌≡◌, ◌+◌, ◌*◌, ◌≤◌, length, Some, None, ltb, cond};
ghost use Rattle.words.specs.Number.{number};
ghost use Rattle.words.specs.Put.{put};
ghost use Rattle.work_rows.specs.Rows.{row_length, field, put_field};
ghost use Rattle.count_capped.specs.Count.{count_limit, capped, fitting, count_length};

use std::marker::Model;
use work_rows::Row;

// A count, as a row keeps it: the eight bytes of a number, and a word for how often 2^64 comes on top. It isn't an `Option<u64>`, since
// `count_at` promises the number of whatever ten bytes a row holds.
#[derive(Clone, Copy)]
pub struct Count {
    pub low: u64,
    pub over: u16,
}

impl Model for Count {
    ghost use Rattle.std.specs.Prelude.{ℕ, ◌<◌, ◌/◌, ◌%◌};

    ghost Value = { ℕ };

    ghost use Rattle.count_capped.specs.Count.{count_limit, number_of};

    ghost view = { number_of };

    ghost invariant = { λ c. c.low < count_limit };

    ghost inverse = { λ n. record { low = n % count_limit; over = n / count_limit } };
}

impl Count {
    // Bytes of a count.
    pub const LENGTH: usize = 10;

    // The most that 64 bits hold.
    pub const MOST: u64 = 18446744073709551615;

    // A number that fits.
    pub fn of(n: u64) -> Count
        ensures { result ≡ n }
    {
        Count { low: n, over: 0 }
    }

    // 2^64 or more.
    fn most() -> Count
        ensures { result ≡ count_limit }
    {
        Count { low: 0, over: 1 }
    }

    // The number, if it fits.
    pub fn number(self) -> Option<u64>
        ensures { result ≡ fitting self }
    {
        if self.over != 0 {
            return None;
        }
        Some(self.low)
    }

    // The sum of two counts, if it fits.
    fn sum(self, other: Count) -> Option<u64>
        ensures { result ≡ fitting (self + other) }
    {
        self.number()?.checked_add(other.number()?)
    }

    // The sum of two counts.
    pub fn plus(self, other: Count) -> Count
        ensures { result ≡ capped (self + other) }
    {
        match self.sum(other) {
            Some(n) => Count::of(n),
            None => Count::most(),
        }
    }

    // The count whose bytes begin at an offset.
    fn read(s: &[u8], at: usize) -> Count
        requires { at + count_length ≤ length s.now }
        ensures { result ≡ number count_length s.now at }
    {
        Count {
            low: words::read64(s, at),
            over: words::read16(s, at + 8),
        }
    }

    // A count into the bytes from an offset on.
    fn write(self, s: &mut [u8], at: usize)
        requires { at + count_length ≤ length s.old }
        ensures { s.new ≡ put count_length s.old at self }
    {
        words::write64(s, at, self.low);
        words::write16(s, at + 8, self.over);
    }
}

// The count at an offset of row r.
pub fn count_at(work: &[u8], r: u16, o: usize) -> Count
    requires { row_length * r + o + count_length ≤ length work.now }
    ensures { result ≡ field count_length work.now r o }
{
    Count::read(work, Row::LENGTH * (r as usize) + o)
}

// A count to an offset of row r.
pub fn put_count(work: &mut [u8], r: u16, o: usize, c: Count)
    requires { row_length * r + o + count_length ≤ length work.old }
    ensures { work.new ≡ put_field count_length work.old r o c }
{
    c.write(work, Row::LENGTH * (r as usize) + o);
}

// The counts of two rules together.
pub fn both(work: &[u8], o: usize, b: u16, c: u16) -> Count
    requires { (row_length * b + o + count_length ≤ length work.now)
        × (row_length * c + o + count_length ≤ length work.now) }
    ensures { let work = work.entry.now in
        result ≡ capped (field count_length work b o + field count_length work c o) }
{
    count_at(work, b, o).plus(count_at(work, c, o))
}
