// Left and right, as every move and every link of a row has them.
#![tactic(auto)]

ghost use Rattle.std.specs.Prelude.{◌≡◌};
ghost use Rattle.forest.specs.Sides.{other, pick};
ghost use Rattle.side.specs.Side.{side_of};

// Left and right.
#[derive(Clone, Copy, Debug, PartialEq, Eq)]
pub enum Side {
    Left,
    Right,
}

impl Side {
    // The other side.
    pub fn other(self) -> Side
        ensures { side_of result ≡ other (side_of self) }
    {
        match self {
            Side::Left => Side::Right,
            Side::Right => Side::Left,
        }
    }

    // The one on this side.
    pub fn pick(self, left: u16, right: u16) -> u16
        ensures { result ≡ pick (side_of self) left right }
    {
        match self {
            Side::Left => left,
            Side::Right => right,
        }
    }
}
