// A turn that is made of Clifford gates: by none, one, two or three quarters of a full turn.
ghost use Rattle.std.specs.Prelude.{◌≡◌};
ghost use Rattle.typed.specs.Turns.{eighths_of, IsTurnBy};

use std::error::Error;
use std::fmt;

#[derive(Clone, Copy, Debug, PartialEq, Eq, Hash)]
pub enum Turn {
    Zero,
    Quarter,
    Half,
    ThreeQuarters,
}

// So many eighths of a full turn are none of the four.
#[derive(Clone, Copy, Debug, PartialEq, Eq, Hash)]
pub struct NoSuchTurn(pub u64);

impl Turn {
    pub fn eighths(self) -> u64
        ensures { result ≡ eighths_of self }
    {
        match self {
            Turn::Zero => 0,
            Turn::Quarter => 2,
            Turn::Half => 4,
            Turn::ThreeQuarters => 6,
        }
    }
}

impl TryFrom<u64> for Turn {
    type Error = NoSuchTurn;

    ghost try_from_gives = { IsTurnBy };

    fn try_from(eighths: u64) -> Result<Self, NoSuchTurn> {
        match eighths {
            0 => Ok(Turn::Zero),
            2 => Ok(Turn::Quarter),
            4 => Ok(Turn::Half),
            6 => Ok(Turn::ThreeQuarters),
            _ => Err(NoSuchTurn(eighths)),
        }
    }
}

impl fmt::Display for Turn {
    fn fmt<W: fmt::Write>(&self, f: &mut fmt::Formatter<W>) -> fmt::Result {
        f.write_str(match self {
            Turn::Zero => "no turn",
            Turn::Quarter => "a quarter turn",
            Turn::Half => "a half turn",
            Turn::ThreeQuarters => "three quarters of a turn",
        })
    }
}

impl fmt::Display for NoSuchTurn {
    fn fmt<W: fmt::Write>(&self, f: &mut fmt::Formatter<W>) -> fmt::Result {
        write!(
            f,
            "{} eighths are no turn by quarters below a full one",
            self.0
        )
    }
}

impl Error for NoSuchTurn {}
