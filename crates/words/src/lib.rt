// Words inside a byte slice, low byte first.
#![tactic(auto)]

ghost use Rattle.std.specs.Prelude.{◌≡◌, ◌+◌, ◌≤◌, length};
ghost use Rattle.words.specs.Number.{number, word_count};
ghost use Rattle.words.specs.Put.{put};
ghost use Rattle.words.specs.Front.{cleared};

// How many 16-bit words s has: an odd last byte isn't counted.
pub fn word_count(s: &[u8]) -> usize
    ensures { result ≡ word_count s.now }
{
    s.len() / 2
}

// The 16-bit word that begins at an offset.
pub fn read16(s: &[u8], at: usize) -> u16
    requires { at + 2 ≤ length s.now }
    ensures { result ≡ number 2 s.now at }
{
    u16::from_le_bytes(s[at..at + 2].try_into().unwrap())
}

// The 32-bit word that begins at an offset.
pub fn read32(s: &[u8], at: usize) -> u32
    requires { at + 4 ≤ length s.now }
    ensures { result ≡ number 4 s.now at }
{
    u32::from_le_bytes(s[at..at + 4].try_into().unwrap())
}

// The 64-bit word that begins at an offset.
pub fn read64(s: &[u8], at: usize) -> u64
    requires { at + 8 ≤ length s.now }
    ensures { result ≡ number 8 s.now at }
{
    u64::from_le_bytes(s[at..at + 8].try_into().unwrap())
}

// A 16-bit word into the two bytes from an offset on.
#[tactic(auto, using(crate::proofs::Library::low_first_bytes), unfolding(crate::specs::Put::put, crate::specs::Number::bytes))]
pub fn write16(s: &mut [u8], at: usize, v: u16)
    requires { at + 2 ≤ length s.old }
    ensures { s.new ≡ put 2 s.old at v }
{
    let two = v.to_le_bytes();
    s[at] = two[0];
    s[at + 1] = two[1];
}

// A 32-bit word into the four bytes from an offset on.
#[tactic(auto, using(crate::proofs::Library::low_first_bytes), unfolding(crate::specs::Put::put, crate::specs::Number::bytes))]
pub fn write32(s: &mut [u8], at: usize, v: u32)
    requires { at + 4 ≤ length s.old }
    ensures { s.new ≡ put 4 s.old at v }
{
    let four = v.to_le_bytes();
    s[at] = four[0];
    s[at + 1] = four[1];
    s[at + 2] = four[2];
    s[at + 3] = four[3];
}

// A 64-bit word into the eight bytes from an offset on.
#[tactic(auto, using(crate::proofs::Library::low_first_bytes), unfolding(crate::specs::Put::put, crate::specs::Number::bytes))]
pub fn write64(s: &mut [u8], at: usize, v: u64)
    requires { at + 8 ≤ length s.old }
    ensures { s.new ≡ put 8 s.old at v }
{
    let eight = v.to_le_bytes();
    s[at] = eight[0];
    s[at + 1] = eight[1];
    s[at + 2] = eight[2];
    s[at + 3] = eight[3];
    s[at + 4] = eight[4];
    s[at + 5] = eight[5];
    s[at + 6] = eight[6];
    s[at + 7] = eight[7];
}

// Zeros into the first m bytes.
pub fn clear(s: &mut [u8], m: usize)
    requires { m ≤ length s.old }
    ensures { s.new ≡ cleared m s.old }
{
    for i in 0..m {
        s[i] = 0;
    }
}
