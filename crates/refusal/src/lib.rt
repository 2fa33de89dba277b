// Why an operation turns its input down (document 01, "Operations and what they turn down"): one type for all of them.
#![tactic(auto)]

ghost use Rattle.std.specs.Prelude.{◌≡◌, Some};
ghost use Rattle.refusal.specs.Refusal.{number_of, position_of, refused_text};

use std::error::Error;
use std::fmt;

// Why an operation turns its input down; specs/Refusal.antt gives the number and position that documents 01 and 02 have for each.
#[derive(Clone, Copy, Debug, PartialEq, Eq)]
pub enum Refusal {
    Magic,
    Count,
    Distance,
    Malformed(usize),
    NoRule(usize),
    WrongSort(usize),
    Start,
    Lent,
    Letter(usize),
    Place,
    Room,
    Cycle(usize),
    Row(usize),
    Gap(usize),
    Overlap(usize),
    TooMany,
    Far,
}

impl Refusal {
    // The documents' number.
    pub fn number(self) -> u32
        ensures { result ≡ number_of self }
    {
        match self {
            Refusal::Magic => 1,
            Refusal::Count => 2,
            Refusal::Distance => 3,
            Refusal::Malformed(_) => 4,
            Refusal::NoRule(_) => 5,
            Refusal::WrongSort(_) => 6,
            Refusal::Start => 7,
            Refusal::Lent => 8,
            Refusal::Letter(_) => 9,
            Refusal::Place => 10,
            Refusal::Room => 11,
            Refusal::Cycle(_) => 12,
            Refusal::Row(_) => 13,
            Refusal::Gap(_) => 14,
            Refusal::Overlap(_) => 15,
            Refusal::TooMany => 16,
            Refusal::Far => 17,
        }
    }

    // The documents' position.
    pub fn position(self) -> u64
        ensures { result ≡ position_of self }
    {
        match self {
            Refusal::Malformed(rule)
            | Refusal::NoRule(rule)
            | Refusal::WrongSort(rule)
            | Refusal::Cycle(rule) => rule as u64,
            Refusal::Letter(at) => at as u64,
            Refusal::Row(row) | Refusal::Gap(row) | Refusal::Overlap(row) => row as u64,
            Refusal::Magic
            | Refusal::Count
            | Refusal::Distance
            | Refusal::Start
            | Refusal::Lent
            | Refusal::Place
            | Refusal::Room
            | Refusal::TooMany
            | Refusal::Far => 0,
        }
    }
}

// As "refused 5 at 0".
impl fmt::Display for Refusal {
    ghost output = { λ why. Some (refused_text why) };

    fn fmt<W: fmt::Write>(&self, f: &mut fmt::Formatter<W>) -> fmt::Result {
        write!(f, "refused {} at {}", self.number(), self.position())
    }
}

impl Error for Refusal {}
