// The plan's format (document 01, "A plan's bytes" and "Check", and document 02, Note 2): the trailer and check.
#![tactic(auto)]

ghost use Rattle.std.specs.Prelude.{◌≡◌, ◌++◌, ◌+◌, ◌-◌, ◌*◌, ◌≤◌, length, take, drop, ◌&&◌, leb, eqb};
ghost use Rattle.std.proofs.lemmas.List.Edits.{sets};
ghost use Rattle.record.specs.Format.{length_of_record};
ghost use Rattle.plan.specs.Check.{trailer_length, magic, trailer_bytes, most_rules, count_of, start_of, distance_of};
ghost use Rattle.plan.specs.Check.{marked_as, format_of, in_limits, checked_up_to, checked};

use judge::judge_rules;
use record::{Format, RuleRecords};
use refusal::Refusal;

// What check answers of an accepted plan: document 01's n and start.
#[derive(Clone, Copy)]
pub struct Checked {
    pub n: u16,
    pub start: u16,
}

// The last bytes of a plan: how many rules, the start rule, and how far back the first rule is.
#[derive(Clone, Copy)]
pub struct Trailer {
    n: u16,
    start: u16,
    distance: u32,
}

impl Trailer {
    // Bytes of the trailer, and where in it its fields begin.
    pub const LENGTH: usize = 10;

    const START: usize = 2;

    const DISTANCE: usize = 4;

    const MARK: usize = 8;

    // The mark bytes of each format, and the largest number of rules.
    const NARROW_MAGIC: [u8; 2] = *b"mp";

    const WIDE_MAGIC: [u8; 2] = *b"mq";

    pub const MOST_RULES: u16 = 16384;

    // The fields of a plan's trailer.
    fn read(s: &[u8]) -> Trailer
        requires { trailer_length ≤ length s.now }
        ensures { (result.n ≡ count_of s.now)
            × (result.start ≡ start_of s.now)
            × (result.distance ≡ distance_of s.now) }
    {
        let at = s.len() - Trailer::LENGTH;
        Trailer {
            n: words::read16(s, at),
            start: words::read16(s, at + Trailer::START),
            distance: words::read32(s, at + Trailer::DISTANCE),
        }
    }

    // The mark of a format.
    fn magic(format: Format) -> [u8; 2]
        ensures { result ≡ magic format }
    {
        match format {
            Format::Narrow => Trailer::NARROW_MAGIC,
            Format::Wide => Trailer::WIDE_MAGIC,
        }
    }

    // The trailer of n rules, right after them.
    pub fn write(out: &mut [u8], format: Format, n: u16, start: u16)
        requires { length_of_record format * n + trailer_length ≤ length out.old }
        ensures { let s = out.old in
            let l = length_of_record format * n in
            out.new ≡ take l s ++ (trailer_bytes format n start ++ drop (l + trailer_length) s) }
    {
        let distance = format.length() * (n as usize);
        words::write16(out, distance, n);
        words::write16(out, distance + Trailer::START, start);
        words::write32(out, distance + Trailer::DISTANCE, distance as u32);
        Trailer::sign(out, distance + Trailer::MARK, format);
    }

    // The mark, its first byte at `at`.
    fn sign(out: &mut [u8], at: usize, format: Format)
        requires { at + 2 ≤ length out.old }
        ensures { out.new ≡ sets out.old at (magic format) }
    {
        let magic = Trailer::magic(format);
        out[at] = magic[0];
        out[at + 1] = magic[1];
    }

    // Does the plan end in the mark of this format?
    fn marked(s: &[u8], format: Format) -> bool
        requires { trailer_length ≤ length s.now }
        ensures { result ≡ marked_as format s.now }
    {
        let at = s.len() - Trailer::LENGTH + Trailer::MARK;
        let magic = Trailer::magic(format);
        (s[at] == magic[0]) & (s[at + 1] == magic[1])
    }

    // The format of a plan, by its mark.
    pub fn format(s: &[u8]) -> Format
        requires { trailer_length ≤ length s.now }
        ensures { result ≡ format_of s.now }
    {
        if Trailer::marked(s, Format::Wide) {
            Format::Wide
        } else {
            Format::Narrow
        }
    }

    // Where the first of n rules begins, which stand right before the trailer.
    pub fn first(s: &[u8], format: Format, n: u16) -> usize
        requires { length_of_record format * n + trailer_length ≤ length s.now }
        ensures { result ≡ length s.now - trailer_length - length_of_record format * n }
    {
        s.len() - Trailer::LENGTH - format.length() * (n as usize)
    }

    // Is the number of rules in range?
    fn in_limits(most: u16, n: u16) -> bool
        ensures { result ≡ in_limits most n }
    {
        (1 <= n) & (n <= most)
    }

    // Is the distance that of n rules, and no longer than what stands before the trailer?
    fn reaches(format: Format, n: u16, distance: usize, end: usize) -> bool
        ensures { result ≡ (eqb distance (length_of_record format * n) && leb distance end) }
    {
        (distance == format.length() * (n as usize)) & (distance <= end)
    }
}

// Check a plan: document 01's n and start, or why it is turned down. It stands once in the machine code, not in each operation that begins
// with it.
#[inline(never)]
pub fn check(plan: &[u8]) -> Result<Checked, Refusal>
    ensures { result ≡ checked plan.now }
{
    check_up_to(plan, Trailer::MOST_RULES)
}

// Check with a limit of its own on the number of rules.
pub fn check_up_to(plan: &[u8], most: u16) -> Result<Checked, Refusal>
    requires { most ≤ most_rules }
    ensures { result ≡ checked_up_to most plan.now }
{
    if plan.len() < Trailer::LENGTH {
        return Err(Refusal::Magic);
    }
    let format = Trailer::format(plan);
    if !Trailer::marked(plan, format) {
        return Err(Refusal::Magic);
    }
    let trailer = Trailer::read(plan);
    let n = trailer.n;
    let start = trailer.start;
    if !Trailer::in_limits(most, n) {
        return Err(Refusal::Count);
    }
    let end = plan.len() - Trailer::LENGTH;
    let distance = trailer.distance as usize;
    if !Trailer::reaches(format, n, distance, end) {
        return Err(Refusal::Distance);
    }
    let rules = RuleRecords {
        bytes: plan,
        format,
        first: end - distance,
        n,
    };
    judge_rules(&rules, start)?;
    Ok(Checked { n, start })
}
