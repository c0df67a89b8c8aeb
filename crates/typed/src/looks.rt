// What a look says. A read says a `history::events::Rotation`.
ghost use Rattle.std.specs.Prelude.{◌≡◌};
ghost use Rattle.typed.specs.Looks.{plain_of};

use crate::ids::EventId;
use history::findings;

// `history`'s `Found` and `Look` with an event's number as its type: a type parameter for it would stand in each signature of `history`, and be no plainer.
// A partner with the relative sign, or that there is none, or that a later event stands in the way, or that the steps of a look ran out.
#[derive(Clone, Copy, Debug, PartialEq, Eq)]
pub enum Found {
    Partner { id: EventId, sign: i8 },
    Nothing,
    Blocked,
    OutOfSteps,
}

// What was found, and how many steps that took.
#[derive(Clone, Copy, Debug, PartialEq, Eq)]
pub struct Look {
    pub found: Found,
    pub steps: u32,
}

impl From<findings::Look> for Look {
    ghost from_gives = { λ a b. a ≡ plain_of b };

    fn from(look: findings::Look) -> Look {
        let found = match look.found {
            findings::Found::Partner { id, sign } => Found::Partner {
                id: EventId(id),
                sign,
            },
            findings::Found::Nothing => Found::Nothing,
            findings::Found::Blocked => Found::Blocked,
            findings::Found::OutOfSteps => Found::OutOfSteps,
        };
        let steps = look.steps;
        Look { found, steps }
    }
}
