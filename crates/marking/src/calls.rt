// The call that records: everything is asked before anything is written, so that it is done whole or refused.
ghost use Rattle.std.specs.Prelude.{◌≡◌, ◌+◌, ◌*◌, ◌≤◌, is_ok};
ghost use Rattle.store.specs.Refusals.{number_of};
ghost use Rattle.store.specs.Promises.{told_first, qubit_number, Meets};
ghost use Rattle.store.specs.Checks.{Fit};
ghost use Rattle.marking.specs.Marks.{call_of, qubits_of, records_of, events_of, Records};

use super::events::{Mark, marked};
use pauli::corrupt::Corrupt;
use store::header::{Sizes, check, sizes_of};
use store::qubits::check_qubits;
use store::refusals::Refusal;

// Its qubits are there and differ.
fn check_mark(n: usize, mark: Mark) -> Result<(), Refusal>
    ensures { number_of result ≡ qubit_number n (qubits_of mark) }
{
    match mark {
        Mark::Rotation { q, .. } | Mark::Measure(q) | Mark::Reset(q) => check_qubits(n, &[q]),
        Mark::Ccx(a, b, t) | Mark::Ccz(a, b, t) => check_qubits(n, &[a, b, t]),
    }
}

// How many events it records.
fn records(mark: Mark) -> usize
    ensures { result ≡ records_of mark }
{
    match mark {
        Mark::Rotation { .. } | Mark::Measure(_) => 1,
        Mark::Reset(_) => 2,
        Mark::Ccx(_, _, _) | Mark::Ccz(_, _, _) => 7,
    }
}

// Records all events, with a row of WORDS words for their axes: that many are cleared for it.
fn with_row<const WORDS: usize>(s: &mut [u64], z: &Sizes, mark: Mark) -> Result<(), Corrupt>
    requires { Fit z.now s.old × (2 * z.now.l + 1 ≤ WORDS) × (WORDS ≤ 725) × (qubit_number z.now.n (qubits_of mark) ≡ 0) }
    ensures { Records (events_of mark) s.old (is_ok result) s.new }
{
    let mut row = [0u64; WORDS];
    let out = &mut row[..];
    marked(s, z, mark, &mut out[..2 * z.l + 1])
}

// The same with the row of up to 192 qubits where it is long enough, else with the longest.
fn either_row(s: &mut [u64], z: &Sizes, mark: Mark) -> Result<(), Corrupt>
    requires { Fit z.now s.old × (qubit_number z.now.n (qubits_of mark) ≡ 0) }
    ensures { Records (events_of mark) s.old (is_ok result) s.new }
{
    if z.l <= 3 {
        with_row::<7>(s, z, mark)
    } else {
        with_row::<725>(s, z, mark)
    }
}

// The call on a store whose header is sound. On words that hold a state the history's first word is the number of events.
fn enter(s: &mut [u64], z: &Sizes, mark: Mark) -> Result<usize, Refusal>
    requires { Fit z.now s.old }
    ensures { Meets (call_of mark) s.old (told_first result) s.new }
{
    check_mark(z.n, mark)?;
    let events = s[z.at] as usize;
    if z.cap < events {
        return Err(Refusal::Corrupt);
    }
    if z.cap < events + records(mark) {
        return Err(Refusal::Full);
    }
    either_row(s, z, mark)?;
    Ok(events)
}

// Records the events of a mark: the number of the first, or why none is recorded.
pub fn enroll(s: &mut [u64], mark: Mark) -> Result<usize, Refusal>
    ensures { Meets (call_of mark) s.old (told_first result) s.new }
{
    check(s)?;
    let z = sizes_of(s);
    enter(s, &z, mark)
}
