// A rule's record (document 01, "A plan's bytes", and document 02, Note 2): its words as they stand in the bytes.
#![tactic(auto)]

ghost use Rattle.std.specs.Prelude.{◌≡◌, ◌++◌, ◌+◌, ◌*◌, ◌≤◌, ◌<◌, length, take, drop};
ghost use Rattle.words.specs.Front.{in_front};
ghost use Rattle.words.specs.Number.{number};
ghost use Rattle.words.specs.Put.{put};
ghost use Rattle.record.specs.Format.{high_length, length_of_record, record_words, most_label};
ghost use Rattle.record.specs.Record.{record_at, record_bytes};
ghost use Rattle.record.specs.Records.{records_from, records_bytes, record_in, kind_at};

// The formats of a plan: rules of four words with labels of a byte, or rules of five with labels of three bytes (document 02, Note 2).
#[derive(Clone, Copy)]
pub enum Format {
    Narrow,
    Wide,
}

impl Format {
    // Bytes of a record.
    pub const NARROW_LENGTH: usize = 8;

    pub const WIDE_LENGTH: usize = 10;

    // Words of a record.
    const NARROW_WORDS: usize = 4;

    const WIDE_WORDS: usize = 5;

    // The largest labels.
    const NARROW_LABEL: u32 = 255;

    pub const WIDE_LABEL: u32 = 16777215;

    // The largest label.
    #[tactic(auto, unfolding(crate::specs::Format::most_label))]
    pub fn most_label(self) -> u32
        ensures { result ≡ most_label self }
    {
        match self {
            Format::Narrow => Format::NARROW_LABEL,
            Format::Wide => Format::WIDE_LABEL,
        }
    }

    // The bytes of a record.
    #[tactic(auto, unfolding(crate::specs::Format::high_length))]
    pub fn length(self) -> usize
        ensures { result ≡ length_of_record self }
    {
        match self {
            Format::Narrow => Format::NARROW_LENGTH,
            Format::Wide => Format::WIDE_LENGTH,
        }
    }

    // The words of a record.
    #[tactic(auto, unfolding(crate::specs::Format::record_words))]
    pub fn words(self) -> usize
        ensures { result ≡ record_words self }
    {
        match self {
            Format::Narrow => Format::NARROW_WORDS,
            Format::Wide => Format::WIDE_WORDS,
        }
    }

    // The fifth word, at an offset; 0 where rules have four.
    #[tactic(auto, unfolding(crate::specs::Format::high_length, words::specs::Number::number))]
    fn read_high(self, s: &[u8], at: usize) -> u16
        requires { at + high_length self ≤ length s.now }
        ensures { result ≡ number (high_length self) s.now at }
    {
        match self {
            Format::Narrow => Record::UNUSED,
            Format::Wide => words::read16(s, at),
        }
    }

    // The fifth word written, where rules have five.
    #[tactic(auto, unfolding(crate::specs::Format::high_length, words::specs::Put::put, words::specs::Number::bytes))]
    fn write_high(self, s: &mut [u8], at: usize, high: u16)
        requires { at + high_length self ≤ length s.old }
        ensures { s.new ≡ put (high_length self) s.old at high }
    {
        match self {
            Format::Narrow => (),
            Format::Wide => words::write16(s, at, high),
        }
    }
}

// The 16-bit words of a rule; the fifth is 0 where rules have four.
#[derive(Clone, Copy)]
pub struct Record {
    pub kind: u16,
    pub one: u16,
    pub two: u16,
    pub three: u16,
    pub high: u16,
}

impl Record {
    // Where a record's later words begin.
    const ONE: usize = 2;

    const TWO: usize = 4;

    const THREE: usize = 6;

    const HIGH: usize = 8;

    // What an unused word holds.
    pub const UNUSED: u16 = 0;

    // The record whose bytes begin at an offset.
    pub fn read(s: &[u8], format: Format, at: usize) -> Record
        requires { at + length_of_record format ≤ length s.now }
        ensures { result ≡ record_at format s.now at }
    {
        Record {
            kind: words::read16(s, at),
            one: words::read16(s, at + Record::ONE),
            two: words::read16(s, at + Record::TWO),
            three: words::read16(s, at + Record::THREE),
            high: format.read_high(s, at + Record::HIGH),
        }
    }

    // The record's bytes, into the slice from an offset on.
    pub fn write(self, s: &mut [u8], format: Format, at: usize)
        requires { at + length_of_record format ≤ length s.old }
        ensures { let s' = s.exit.now in
            let s = s.entry.now in
            s' ≡ take at s ++ (record_bytes format self ++ drop (at + length_of_record format) s) }
    {
        words::write16(s, at, self.kind);
        words::write16(s, at + Record::ONE, self.one);
        words::write16(s, at + Record::TWO, self.two);
        words::write16(s, at + Record::THREE, self.three);
        format.write_high(s, at + Record::HIGH, self.high);
    }
}

// The n records of a slice from an offset on, copied to the front of another: record after record, since a copy of bytes in one would need memmove of
// whoever links the library, which needs memset alone.
pub fn copy_records(s: &[u8], format: Format, first: usize, n: usize, out: &mut [u8])
    requires { (first + length_of_record format * n ≤ length s.now) × (length_of_record format * n ≤ length out.old) }
    ensures { out.new ≡ in_front (records_bytes format (records_from format s.now first n)) out.old }
{
    let length = format.length();
    for i in 0..n {
        Record::read(s, format, first + length * i).write(out, format, length * i);
    }
}

// The records of n rules, which lie one after another in the bytes from an offset on.
#[derive(Clone, Copy)]
pub struct RuleRecords<'a> {
    pub bytes: &'a [u8],
    pub format: Format,
    pub first: usize,
    pub n: u16,
    pub ghost lies: { first + length_of_record format * n ≤ length bytes.now },
}

impl RuleRecords<'_> {
    ghost use Rattle.record.specs.RuleRecords.{records_lent};

    // The record of rule i.
    pub fn record(self, i: u16) -> Record
        requires { i < self.n }
        ensures { result ≡ record_in (records_lent self.entry) i }
    {
        Record::read(self.bytes, self.format, self.at(i))
    }

    // Its kind alone.
    pub fn kind(self, i: u16) -> u16
        requires { i < self.n }
        ensures { result ≡ kind_at (records_lent self.entry) i }
    {
        words::read16(self.bytes, self.at(i))
    }

    // Where the record of rule i begins.
    fn at(self, i: u16) -> usize
        requires { i < self.n }
        ensures { result ≡ self.entry.first + length_of_record self.entry.format * i }
    {
        self.first + self.format.length() * (i as usize)
    }
}
