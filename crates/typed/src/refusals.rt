// Why a call on a store was refused. Nothing was written then.
ghost use Rattle.std.specs.Prelude.{◌≡◌, Ok, IfOk};
ghost use Rattle.std.specs.Result.{ForErr};
ghost use Rattle.store.specs.Refusals as store;
ghost use Rattle.typed.specs.Refusals.{code_of, number_of, wide_of, IsOnStore};

use std::error::Error;
use std::fmt;

#[derive(Clone, Copy, Debug, PartialEq, Eq, Hash)]
pub enum Refusal {
    NoSuchQubit,
    SameQubit,
    Full,
    NoSuchEvent,
}

impl Refusal {
    // 01's number, 4 to 7.
    pub fn code(self) -> u32
        ensures { result ≡ code_of self }
    {
        match self {
            Refusal::NoSuchQubit => 4,
            Refusal::SameQubit => 5,
            Refusal::Full => 6,
            Refusal::NoSuchEvent => 7,
        }
    }
}

impl fmt::Display for Refusal {
    fn fmt<W: fmt::Write>(&self, f: &mut fmt::Formatter<W>) -> fmt::Result {
        f.write_str(match self {
            Refusal::NoSuchQubit => "no such qubit",
            Refusal::SameQubit => "a qubit is named twice",
            Refusal::Full => "no room for the events",
            Refusal::NoSuchEvent => "no such event, or it is no rotation, or dead",
        })
    }
}

impl Error for Refusal {}

impl From<Refusal> for store::refusals::Refusal {
    ghost from_gives = { λ e f. f ≡ wide_of e };

    fn from(refusal: Refusal) -> store::refusals::Refusal {
        match refusal {
            Refusal::NoSuchQubit => store::refusals::Refusal::NoSuchQubit,
            Refusal::SameQubit => store::refusals::Refusal::SameQubit,
            Refusal::Full => store::refusals::Refusal::Full,
            Refusal::NoSuchEvent => store::refusals::Refusal::NoSuchEvent,
        }
    }
}

// The refusal of a call on words that hold a state: the other three do not come there.
fn narrowed(refusal: store::refusals::Refusal) -> Refusal
    requires { IsOnStore refusal }
    ensures { wide_of result ≡ refusal }
{
    match refusal {
        store::refusals::Refusal::NoSuchQubit => Refusal::NoSuchQubit,
        store::refusals::Refusal::SameQubit => Refusal::SameQubit,
        store::refusals::Refusal::Full => Refusal::Full,
        store::refusals::Refusal::NoSuchEvent => Refusal::NoSuchEvent,
        store::refusals::Refusal::TooShort => unreachable!(),
        store::refusals::Refusal::Turn => unreachable!(),
        store::refusals::Refusal::Corrupt => unreachable!(),
    }
}

// The result of such a call.
pub(crate) fn on_store<T>(answer: Result<T, store::refusals::Refusal>) -> Result<T, Refusal>
    requires { ForErr answer IsOnStore }
    ensures number { number_of result ≡ store.number_of answer }
    ensures value { IfOk result (λ v. answer ≡ Ok v) }
{
    match answer {
        Ok(value) => Ok(value),
        Err(refusal) => Err(narrowed(refusal)),
    }
}
