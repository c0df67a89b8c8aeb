// An answer as a number and, where it says more, as words of the caller's.
ghost use Rattle.std.specs.Prelude.{◌≡◌, ◌∷◌, ◌≤◌, length, drop};
ghost use Rattle.store.specs.Promises.{told_open, told_done, told_first, told_read, told_look, seen_of, number};
ghost use Rattle.model.specs.Calls.{looked};
ghost use Rattle.host.specs.Host.{sign_word, bit, first_of, words_of};

use history::events::Rotation;
use history::findings::{Found, Look};
use store::refusals::{OpenError, Refusal};

// 01's number of an opening. Beside `number_of`, since the two errors are two types: a trait over both would be longer than the two bodies.
#[tactic(auto, unfolding(store::specs::Promises::number))]
pub fn open_number_of(opened: Result<(), OpenError>) -> u32
    ensures { result ≡ number (told_open opened) }
{
    match opened {
        Ok(_) => 0,
        Err(e) => e.code(),
    }
}

// 01's number of a call that records nothing.
#[tactic(auto, unfolding(store::specs::Promises::number))]
pub fn number_of(done: Result<(), Refusal>) -> u32
    ensures { result ≡ number (told_done done) }
{
    match done {
        Ok(_) => 0,
        Err(e) => e.code(),
    }
}

// The same of one that records, and the number of the first event recorded goes to `first`.
#[tactic(auto, unfolding(store::specs::Promises::number, crate::specs::Host::first_of))]
pub fn first_of(recorded: Result<usize, Refusal>, first: &mut usize) -> u32
    ensures value { result ≡ number (told_first recorded) }
    ensures first_after { first.new ≡ first_of (told_first recorded) first.old }
{
    match recorded {
        Ok(id) => {
            *first = id;
            0
        }
        Err(e) => e.code(),
    }
}

// 1, or -1 for a signed reader.
pub fn sign_word(sign: i8) -> u64
    ensures { result ≡ sign_word sign }
{
    if sign < 0 { u64::MAX } else { 1 }
}

#[tactic(auto, unfolding(crate::specs::Host::bit))]
pub fn bit_word(b: bool) -> u64
    ensures { result ≡ bit b }
{
    u64::from(b)
}

// The four words of a look into the first of `says`; of a refusal none.
pub fn sight_into(a: Result<Look, Refusal>, says: &mut [u64]) -> u32
    requires { 4 ≤ length says.old }
    ensures value { result ≡ number (told_look a) }
    ensures says_after { says.new ≡ words_of (told_look a) says.old }
{
    match a {
        Ok(look) => seen_into(look, says),
        Err(e) => e.code(),
    }
}

#[tactic(auto, unfolding(store::specs::Promises::number))]
fn seen_into(look: Look, says: &mut [u64]) -> u32
    requires { 4 ≤ length says.old }
    ensures value { result ≡ 0 }
    ensures says_after { says.new ≡ words_of (looked (seen_of look.found look.steps)) says.old }
{
    match look.found {
        Found::Partner { id, sign } => write(says, 1, id as u64, sign_word(sign), look.steps),
        Found::Nothing => write(says, 0, 0, 0, look.steps),
        Found::Blocked => write(says, 2, 0, 0, look.steps),
        Found::OutOfSteps => write(says, 3, 0, 0, look.steps),
    }
}

// Three words into the first of `says`, for a read.
pub fn reading_into(a: Result<Rotation, Refusal>, says: &mut [u64]) -> u32
    requires { 3 ≤ length says.old }
    ensures value { result ≡ number (told_read a) }
    ensures says_after { says.new ≡ words_of (told_read a) says.old }
{
    match a {
        Ok(rotation) => {
            says[0] = rotation.tag as u64;
            says[1] = sign_word(rotation.sign);
            says[2] = bit_word(rotation.live);
            0
        }
        Err(e) => e.code(),
    }
}

fn write(says: &mut [u64], what: u64, id: u64, sign: u64, steps: u32) -> u32
    requires { 4 ≤ length says.old }
    ensures value { result ≡ 0 }
    ensures says_after { says.new ≡ what ∷ id ∷ sign ∷ steps ∷ drop 4 says.old }
{
    says[0] = what;
    says[1] = id;
    says[2] = sign;
    says[3] = steps as u64;
    0
}
