// The lines of the output, each written with its newline from the start of the lent buffer on. Every one of them has room in 128 bytes
// (proofs/Room.antt, `spoken_room`). The answer is how many bytes were written.
ghost use Rattle.model.specs.Calls.{refused, looked};
ghost use Rattle.model.specs.Search.{found};
ghost use Rattle.std.specs.Prelude.{◌≡◌, ℕ};
ghost use Rattle.store.specs.Promises.{seen_of};
ghost use Rattle.store.specs.Refusals.{code_of};
ghost use Rattle.text.specs.Told.{told_by, seen_by};
ghost use Rattle.text.specs.Wrote.{Wrote};
ghost use Rattle.text.specs.Spoken.{replied, bad, not_opened, end, spoken};

use super::writing::write_by;
use history::findings::{Found, Look};
use store::refusals::Refusal;

// What an error is told by: the library's own refusals have the numbers 3 to 9, and a number is its own.
pub trait Numbered {
    ghost number_of: { Self → ℕ };

    fn number(self) -> u32
        ensures { result ≡ number_of self };
}

impl Numbered for Refusal {
    ghost number_of = { λ e. code_of e };

    fn number(self) -> u32 {
        Refusal::code(self)
    }
}

impl Numbered for u32 {
    ghost number_of = { λ k. k };

    fn number(self) -> u32 {
        self
    }
}

// "A refused operation prints its answer alone."
fn write_refusal(line: u64, number: u32, out: &mut [u8]) -> usize
    ensures { Wrote out.old 0 (spoken (replied line (refused number))) out.new result }
{
    let k = number as u64;
    let v = [line, k];
    write_by(b"line=# answer=#\n", &v, out)
}

// What a call that writes gave back.
pub fn write_answer<E: Numbered>(line: u64, a: Result<Option<usize>, E>, out: &mut [u8]) -> usize
    ensures { Wrote out.old 0 (spoken (replied line (told_by E.number_of a))) out.new result }
{
    match a {
        Ok(None) => {
            let v = [line];
            write_by(b"line=# answer=0\n", &v, out)
        }
        Ok(Some(first)) => {
            let id = first as u64;
            let v = [line, id];
            write_by(b"line=# answer=0 id=#\n", &v, out)
        }
        Err(e) => write_refusal(line, e.number(), out),
    }
}

// "sign prints as 1 or -1".
fn write_found(line: u64, first: usize, sign: i8, spent: u32, out: &mut [u8]) -> usize
    ensures { Wrote out.old 0 (spoken (replied line (looked (found first sign spent)))) out.new result }
{
    let id = first as u64;
    let steps = spent as u64;
    let v = [line, id, steps];
    if sign < 0 {
        return write_by(b"line=# look=found id=# sign=-1 steps=#\n", &v, out);
    }
    write_by(b"line=# look=found id=# sign=1 steps=#\n", &v, out)
}

// What a look said.
pub fn write_sight<E: Numbered>(line: u64, s: Result<Look, E>, out: &mut [u8]) -> usize
    ensures { Wrote out.old 0 (spoken (replied line (seen_by E.number_of s))) out.new result }
{
    match s {
        Ok(look) => write_seen(line, look, out),
        Err(e) => write_refusal(line, e.number(), out),
    }
}

fn write_seen(line: u64, look: Look, out: &mut [u8]) -> usize
    ensures { Wrote out.old 0 (spoken (replied line (looked (seen_of look.found look.steps)))) out.new result }
{
    let steps = look.steps as u64;
    let v = [line, steps];
    match look.found {
        Found::Partner { id, sign } => write_found(line, id, sign, look.steps, out),
        Found::Nothing => write_by(b"line=# look=none steps=#\n", &v, out),
        Found::Blocked => write_by(b"line=# look=blocked steps=#\n", &v, out),
        Found::OutOfSteps => write_by(b"line=# look=out steps=#\n", &v, out),
    }
}

// A line outside the rules.
pub fn write_bad(line: u64, out: &mut [u8]) -> usize
    ensures { Wrote out.old 0 (spoken (bad line)) out.new result }
{
    let v = [line];
    write_by(b"line=# answer=bad\n", &v, out)
}

// "A refused opening [..] prints `open=K`".
pub fn write_not_opened(number: u32, out: &mut [u8]) -> usize
    ensures { Wrote out.old 0 (spoken (not_opened number)) out.new result }
{
    let k = number as u64;
    let v = [k];
    write_by(b"open=#\n", &v, out)
}

// The end, after the last line read.
pub fn write_end(line: u64, events: u64, live: u64, out: &mut [u8]) -> usize
    ensures { Wrote out.old 0 (spoken (end line (record { events = events; live = live }))) out.new result }
{
    let v = [line, events, live];
    write_by(b"end=# events=# live=#\n", &v, out)
}
