// Why an opening or a call was refused. specs/Refusals.antt gives 01's number of each.
ghost use Rattle.std.specs.Prelude.{◌≡◌};
ghost use Rattle.store.specs.Refusals.{code_of, open_code_of};
ghost use Rattle.store.specs.declared.refusals.Refusal.TheVariants as refusal;

use history::kill::KillError;
use pauli::corrupt::Corrupt;
use std::error::Error;
use std::fmt;

// Why an opening was refused. Nothing was written then.
#[derive(Clone, Copy, Debug, PartialEq, Eq, Hash)]
pub enum OpenError {
    Sizes,
    Events,
    TooShort,
}

impl OpenError {
    // 01's number: "At opening 1, 2, 3".
    pub fn code(self) -> u32
        ensures { result ≡ open_code_of self }
    {
        match self {
            OpenError::Sizes => 1,
            OpenError::Events => 2,
            OpenError::TooShort => 3,
        }
    }
}

impl fmt::Display for OpenError {
    fn fmt<W: fmt::Write>(&self, f: &mut fmt::Formatter<W>) -> fmt::Result {
        f.write_str(match self {
            OpenError::Sizes => "the number of qubits or of steps, or the form, is out of range",
            OpenError::Events => "the room for events is out of range",
            OpenError::TooShort =>
                "the labels are not four words a qubit, or the store is too short",
        })
    }
}

impl Error for OpenError {}

// Why a call on a store was refused. Nothing was written then, but where the words are corrupt.
#[derive(Clone, Copy, Debug, PartialEq, Eq, Hash)]
pub enum Refusal {
    TooShort,
    NoSuchQubit,
    SameQubit,
    Full,
    NoSuchEvent,
    Turn,
    Corrupt,
}

impl Refusal {
    // 01's number.
    pub fn code(self) -> u32
        ensures { result ≡ code_of self }
    {
        match self {
            Refusal::TooShort => 3,
            Refusal::NoSuchQubit => 4,
            Refusal::SameQubit => 5,
            Refusal::Full => 6,
            Refusal::NoSuchEvent => 7,
            Refusal::Turn => 8,
            Refusal::Corrupt => 9,
        }
    }
}

impl fmt::Display for Refusal {
    fn fmt<W: fmt::Write>(&self, f: &mut fmt::Formatter<W>) -> fmt::Result {
        f.write_str(match self {
            Refusal::TooShort => "the store is shorter than at its opening",
            Refusal::NoSuchQubit => "no such qubit",
            Refusal::SameQubit => "a qubit is named twice",
            Refusal::Full => "no room for the events",
            Refusal::NoSuchEvent => "no such event, or it is no rotation, or dead",
            Refusal::Turn => "a turn that is not by 0, 2, 4 or 6 eighths",
            Refusal::Corrupt => "the stored words hold no state",
        })
    }
}

impl Error for Refusal {}

impl From<Corrupt> for Refusal {
    ghost from_gives = { λ _ e. e ≡ refusal.Corrupt };

    fn from(_e: Corrupt) -> Refusal {
        Refusal::Corrupt
    }
}

impl From<KillError> for Refusal {
    ghost use Rattle.store.specs.Refusals.{kill_refusal};

    ghost from_gives = { λ k e. e ≡ kill_refusal k };

    fn from(e: KillError) -> Refusal {
        match e {
            KillError::NoSuchEvent => Refusal::NoSuchEvent,
            KillError::Corrupt => Refusal::Corrupt,
        }
    }
}
