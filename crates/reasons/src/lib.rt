// Why a key does nothing (document 02, Note 11): the reasons, and what is answered to who asks.
#![tactic(auto)]

ghost use Rattle.std.specs.Prelude.{◌≡◌};
ghost use Rattle.reasons.specs.Reason.{number_of};

// Why a letter moves or doesn't; specs/Reason.antt gives the number that document 02 has for each.
#[derive(Clone, Copy, Debug, PartialEq, Eq)]
pub enum Reason {
    Moves,
    Above,
    NoTrees,
    NoChildren,
    LastSibling,
    FirstSibling,
    Root,
}

impl Reason {
    // The document's number.
    pub fn number(self) -> u32
        ensures { result ≡ number_of self }
    {
        match self {
            Reason::Moves => 0,
            Reason::Above => 1,
            Reason::NoTrees => 2,
            Reason::NoChildren => 3,
            Reason::LastSibling => 4,
            Reason::FirstSibling => 5,
            Reason::Root => 6,
        }
    }
}
