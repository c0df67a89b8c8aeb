// 01's worked example and its twelve proved cases, by calls of the public library on one slice of words. Each line says what the library answered, and
// the file `stdout` what 01 says, written by hand: `rt ci` runs the program and compares the two. The words are not zero at the start, and each
// opening finds those of the stores before it.
#![tactic(auto)]

use frame::axes::Kind;
use gating::gates::Gate;
use history::events::Rotation;
use history::findings::{Found, Look};
use history::forms::Form;
use partner::calls::{ccx, clear, gate, kill, look, measure, open, read, record};
use std::{fmt, io};
use store::refusals::{OpenError, Refusal};

// ---- what is written

// A line of the worked example, or one of the cases.
#[derive(Clone, Copy, Debug, PartialEq, Eq)]
enum Place {
    Line(u32),
    Case(u32),
}

impl fmt::Display for Place {
    fn fmt<W: fmt::Write>(&self, f: &mut fmt::Formatter<W>) -> fmt::Result {
        match self {
            Place::Line(number) => write!(f, "line={number}"),
            Place::Case(number) => write!(f, "case={number}"),
        }
    }
}

// Writes what an opening gave back: "0: done", or 01's number of the refusal.
fn opened(rt: &impl Print, at: Place, said: Result<(), OpenError>) -> io::Result<()> {
    match said {
        Ok(()) => println!(rt; "{at} answer=0"),
        Err(e) => println!(rt; "{at} answer={}", e.code()),
    }
}

// The same of a call that records nothing: a function of its own, since the two errors share no trait.
fn done(rt: &impl Print, at: Place, said: Result<(), Refusal>) -> io::Result<()> {
    match said {
        Ok(()) => println!(rt; "{at} answer=0"),
        Err(e) => println!(rt; "{at} answer={}", e.code()),
    }
}

// The same of one that records, with the first event that it recorded.
fn recorded(rt: &impl Print, at: Place, said: Result<usize, Refusal>) -> io::Result<()> {
    match said {
        Ok(id) => println!(rt; "{at} answer=0 id={id}"),
        Err(e) => println!(rt; "{at} answer={}", e.code()),
    }
}

// Writes what a look says.
fn seen(rt: &impl Print, at: Place, said: Result<Look, Refusal>) -> io::Result<()> {
    match said {
        Ok(Look { found, steps }) => match found {
            Found::Partner { id, sign } => {
                println!(rt; "{at} look=found id={id} sign={sign} steps={steps}")
            }
            Found::Nothing => println!(rt; "{at} look=none steps={steps}"),
            Found::Blocked => println!(rt; "{at} look=blocked steps={steps}"),
            Found::OutOfSteps => println!(rt; "{at} look=out steps={steps}"),
        },
        Err(e) => println!(rt; "{at} answer={}", e.code()),
    }
}

// Writes what a read says.
fn kept(rt: &impl Print, at: Place, said: Result<Rotation, Refusal>) -> io::Result<()> {
    match said {
        Ok(Rotation { tag, sign, .. }) => println!(rt; "{at} read tag={tag} sign={sign}"),
        Err(e) => println!(rt; "{at} answer={}", e.code()),
    }
}

// ---- 01's worked example, from its last label line on

fn worked(rt: &impl Print, s: &mut [u64]) -> io::Result<()> {
    let labels = [0u64, 1, 0, 2, 0, 4, 0, 8];
    opened(
        rt,
        Place::Line(6),
        open(s, 2, 8, 1048576, Form::Scalar, &labels),
    )?;
    recorded(rt, Place::Line(7), record(s, Kind::Z, 0, 1))?;
    done(rt, Place::Line(8), gate(s, Gate::Cnot(0, 1)))?;
    seen(rt, Place::Line(9), look(s, Kind::Z, 1))
}

fn carried(rt: &impl Print, s: &mut [u64]) -> io::Result<()> {
    done(rt, Place::Line(10), gate(s, Gate::X(1)))?;
    done(rt, Place::Line(11), gate(s, Gate::Cnot(0, 1)))?;
    done(rt, Place::Line(12), gate(s, Gate::X(0)))?;
    seen(rt, Place::Line(13), look(s, Kind::Z, 0))
}

fn blocked(rt: &impl Print, s: &mut [u64]) -> io::Result<()> {
    recorded(rt, Place::Line(14), record(s, Kind::X, 0, 2))?;
    seen(rt, Place::Line(15), look(s, Kind::Z, 0))?;
    done(rt, Place::Line(16), kill(s, 1))?;
    seen(rt, Place::Line(17), look(s, Kind::Z, 0))?;
    done(rt, Place::Line(18), clear(s))?;
    seen(rt, Place::Line(19), look(s, Kind::Z, 0))
}

// ---- cases 1 to 4: sizes. A slice for the largest stores is not lent here: 3, the last refusal, says that n and E were accepted.

fn qubits(rt: &impl Print, s: &mut [u64]) -> io::Result<()> {
    let labels = [0u64; 128];
    opened(
        rt,
        Place::Case(1),
        open(s, 23168, 1, 0, Form::Scalar, &labels),
    )?;
    opened(
        rt,
        Place::Case(1),
        open(s, 23169, 1, 0, Form::Scalar, &labels),
    )?;
    opened(rt, Place::Case(2), open(s, 32, 1, 0, Form::Sliced, &labels))?;
    opened(rt, Place::Case(2), open(s, 33, 1, 0, Form::Sliced, &labels))
}

fn events(rt: &impl Print, s: &mut [u64]) -> io::Result<()> {
    let labels = [0u64; 4];
    opened(
        rt,
        Place::Case(3),
        open(s, 1, 16777216, 0, Form::Scalar, &labels),
    )?;
    opened(
        rt,
        Place::Case(3),
        open(s, 1, 16777217, 0, Form::Scalar, &labels),
    )?;
    opened(
        rt,
        Place::Case(4),
        open(s, 192, 5592405, 0, Form::Scalar, &labels),
    )?;
    opened(
        rt,
        Place::Case(4),
        open(s, 192, 5592406, 0, Form::Scalar, &labels),
    )
}

// ---- cases 5 to 8: a rotation about y is recorded on the fresh frame, and its sign is read; after a gate a look for another axis finds it, with the
// sign of that axis

fn fresh_y(rt: &impl Print, s: &mut [u64], at: Place) -> io::Result<()> {
    let labels = [0u64; 4];
    opened(rt, at, open(s, 1, 4, 1048576, Form::Scalar, &labels))?;
    recorded(rt, at, record(s, Kind::Y, 0, 5))?;
    kept(rt, at, read(s, 0))
}

fn y_after(rt: &impl Print, s: &mut [u64], at: Place, g: Gate, kind: Kind) -> io::Result<()> {
    fresh_y(rt, s, at)?;
    done(rt, at, gate(s, g))?;
    seen(rt, at, look(s, kind, 0))
}

// ---- cases 9 and 10: so many rotations about Z0, and a look for Z0. The parameters are what the cases differ in.

fn searched(
    rt: &impl Print,
    s: &mut [u64],
    at: Place,
    form: Form,
    steps: u64,
    many: u64,
) -> io::Result<()> {
    let labels = [0u64; 4];
    opened(rt, at, open(s, 1, 64, steps, form, &labels))?;
    for _ in 0..many {
        let _ = record(s, Kind::Z, 0, 1);
    }
    print!(rt; "recorded={many} ")?;
    seen(rt, at, look(s, Kind::Z, 0))
}

// ---- case 11: all of the seven blockers, or none

fn toffoli(rt: &impl Print, s: &mut [u64], events: usize) -> io::Result<()> {
    let labels = [0u64; 12];
    let at = Place::Case(11);
    opened(rt, at, open(s, 3, events, 1048576, Form::Scalar, &labels))?;
    recorded(rt, at, measure(s, 0))?;
    recorded(rt, at, ccx(s, 0, 1, 2))?;
    recorded(rt, at, measure(s, 0))
}

// ---- case 12: list 0 has Z0 and three of Z0Z1. A look for Z0 pays for the three, dead ones too, until two dead ones are dropped.

fn first(rt: &impl Print, s: &mut [u64]) -> io::Result<()> {
    let labels = [0u64, 1, 0, 2, 0, 4, 0, 8];
    let at = Place::Case(12);
    opened(rt, at, open(s, 2, 8, 1048576, Form::Scalar, &labels))?;
    recorded(rt, at, record(s, Kind::Z, 0, 1))?;
    done(rt, at, gate(s, Gate::Cnot(0, 1)))
}

fn three(rt: &impl Print, s: &mut [u64]) -> io::Result<()> {
    let at = Place::Case(12);
    for tag in 2..5 {
        recorded(rt, at, record(s, Kind::Z, 1, tag))?;
    }
    done(rt, at, gate(s, Gate::Cnot(0, 1)))
}

fn dropped(rt: &impl Print, s: &mut [u64]) -> io::Result<()> {
    let at = Place::Case(12);
    seen(rt, at, look(s, Kind::Z, 0))?;
    done(rt, at, kill(s, 1))?;
    seen(rt, at, look(s, Kind::Z, 0))?;
    done(rt, at, kill(s, 2))?;
    seen(rt, at, look(s, Kind::Z, 0))
}

fn main(rt: HostRuntime) -> io::Result<()> {
    let mut s = [7u64; 4763];
    worked(&rt, &mut s)?;
    carried(&rt, &mut s)?;
    blocked(&rt, &mut s)?;
    let mut least = [7u64; 2521];
    qubits(&rt, &mut least)?;
    events(&rt, &mut least)?;
    fresh_y(&rt, &mut s, Place::Case(5))?;
    y_after(&rt, &mut s, Place::Case(6), Gate::S(0), Kind::X)?;
    y_after(&rt, &mut s, Place::Case(7), Gate::Sdg(0), Kind::X)?;
    y_after(&rt, &mut s, Place::Case(8), Gate::Sx(0), Kind::Z)?;
    searched(&rt, &mut s, Place::Case(9), Form::Scalar, 1, 1)?;
    searched(&rt, &mut s, Place::Case(9), Form::Scalar, 0, 1)?;
    searched(&rt, &mut s, Place::Case(9), Form::Sliced, 1, 1)?;
    searched(&rt, &mut s, Place::Case(10), Form::Sliced, 1048576, 64)?;
    searched(&rt, &mut s, Place::Case(10), Form::Sliced, 1048576, 63)?;
    toffoli(&rt, &mut s, 7)?;
    toffoli(&rt, &mut s, 8)?;
    first(&rt, &mut s)?;
    three(&rt, &mut s)?;
    dropped(&rt, &mut s)
}
