// A letter, and the letter of a byte (document 01, "Letters").
#![tactic(auto)]

ghost use Rattle.std.specs.Prelude.{◌≡◌, option_map, ◌≤◌, ◌<◌};
ghost use Rattle.forest.specs.Letter.{letter_of};
ghost use Rattle.letter.specs.Letter.{move_of};

// A letter.
#[derive(Clone, Copy, Debug, PartialEq, Eq)]
pub enum Letter {
    A,
    Z,
    F,
    L,
    N,
    P,
    U,
    S,
}

impl Letter {
    // The answer to a letter that leads nowhere (document 02, Note 2).
    pub const NOWHERE: u32 = 4294967295;

    // Bytes of an answer.
    pub const ANSWER_LENGTH: usize = 4;
}

// The letter of a byte, if it is one, by comparisons: a `match` becomes a jump through a table.
#[tactic(auto, unfolding(crate::specs::Letter::move_of, forest::specs::Letter::letter_of))]
pub fn letter_of(b: u8) -> Option<Letter>
    ensures { option_map move_of result ≡ letter_of b }
{
    if b == b's' {
        return Some(Letter::S);
    }
    if b < b'l' {
        return low_letter(b);
    }
    if b < b'p' {
        return middle_letter(b);
    }
    high_letter(b)
}

// The letter of a byte below l.
fn low_letter(b: u8) -> Option<Letter>
    requires { b < 108 }
    ensures { option_map move_of result ≡ letter_of b }
{
    if b == b'a' {
        return Some(Letter::A);
    }
    if b == b'f' {
        return Some(Letter::F);
    }
    None
}

// The letter of a byte from l on and below p.
fn middle_letter(b: u8) -> Option<Letter>
    requires { (108 ≤ b) × (b < 112) }
    ensures { option_map move_of result ≡ letter_of b }
{
    if b == b'l' {
        return Some(Letter::L);
    }
    if b == b'n' {
        return Some(Letter::N);
    }
    None
}

// The letter of a byte from p on, which isn't s.
fn high_letter(b: u8) -> Option<Letter>
    requires { (112 ≤ b) × (b ≡ 115 → ⊥) }
    ensures { option_map move_of result ≡ letter_of b }
{
    if b == b'p' {
        return Some(Letter::P);
    }
    if b == b'u' {
        return Some(Letter::U);
    }
    if b == b'z' {
        return Some(Letter::Z);
    }
    None
}
