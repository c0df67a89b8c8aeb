// The calls: a gate and a turn on a store. Nothing is asked of the words; specs/Promises.antt of `store` says what `Meets` promises.
ghost use Rattle.std.specs.Prelude.{◌≡◌};
ghost use Rattle.model.specs.Calls.{call_gate, call_turn, gate_qubits};
ghost use Rattle.frame.specs.Axes.{kind_of};
ghost use Rattle.store.specs.Refusals.{number_of};
ghost use Rattle.store.specs.Promises.{told_done, qubit_number, Meets};
ghost use Rattle.gating.specs.Gates.{gate_of, turn_number};

use crate::gates::{Gate, act, turned};
use frame::axes::Kind;
use store::header::{frame_sizes, history_place};
use store::qubits::check_qubits;
use store::refusals::Refusal;

// The gate's qubits are there and differ.
#[tactic(auto, unfolding(crate::specs::Gates::gate_of, model::specs::Calls::gate_qubits))]
fn check_gate(n: usize, g: Gate) -> Result<(), Refusal>
    ensures { number_of result ≡ qubit_number n (gate_qubits (gate_of g)) }
{
    match g {
        Gate::H(q) | Gate::X(q) | Gate::Y(q) | Gate::Z(q) => check_qubits(n, &[q]),
        Gate::S(q) | Gate::Sdg(q) | Gate::Sx(q) => check_qubits(n, &[q]),
        Gate::Cnot(a, b) | Gate::Cz(a, b) | Gate::Swap(a, b) | Gate::Cy(a, b) => {
            check_qubits(n, &[a, b])
        }
    }
}

// A gate on both frames. "4: a qubit is n or more", "5: one gate names a qubit twice"
pub fn gate(s: &mut [u64], g: Gate) -> Result<(), Refusal>
    ensures { Meets (call_gate (gate_of g)) s.old (told_done result) s.new }
{
    let (n, l) = frame_sizes(s)?;
    check_gate(n, g)?;
    let end = history_place(n, l);
    act(&mut s[14..end], n, l, g)?;
    Ok(())
}

// No type of its own for a turn: the public call takes any number and refuses it by 8, as C and the line program hand it over.
// In eighths of a full turn: three quarters. The frames know turns by even numbers of eighths.
const LARGEST_TURN: u64 = 6;

// The turn is one of 01's, and its qubit is there. "8: a turn other than 0, 2, 4, 6" comes first.
fn check_turn(n: usize, k: u64, q: usize) -> Result<(), Refusal>
    ensures { number_of result ≡ turn_number n k q }
{
    if LARGEST_TURN < k || k % 2 == 1 {
        return Err(Refusal::Turn);
    }
    check_qubits(n, &[q])
}

// Not one function with `gate` over a closure: the three steps are shared already, and the closure's clause would be as long as this body.
// The gates of a turn on both frames. "8: a turn other than 0, 2, 4, 6", then 4
pub fn turn(s: &mut [u64], kind: Kind, k: u64, q: usize) -> Result<(), Refusal>
    ensures { Meets (call_turn (kind_of kind) k q) s.old (told_done result) s.new }
{
    let (n, l) = frame_sizes(s)?;
    check_turn(n, k, q)?;
    let end = history_place(n, l);
    turned(&mut s[14..end], n, l, kind, k, q)?;
    Ok(())
}
