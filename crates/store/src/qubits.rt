// Whether the qubits of a call are there and differ (01: "4: a qubit is n or more"; "5: one gate names a qubit twice"; 4 comes first).
ghost use Rattle.std.specs.Prelude.{◌≡◌};
ghost use Rattle.store.specs.Refusals.{number_of};
ghost use Rattle.store.specs.Promises.{qubit_number};

use super::refusals::Refusal;

#[inline]
pub fn check_qubits(n: usize, qubits: &[usize]) -> Result<(), Refusal>
    ensures { number_of result ≡ qubit_number n qubits.now }
{
    if qubits.iter().any(|&q| n <= q) {
        return Err(Refusal::NoSuchQubit);
    }
    for (i, q) in qubits.iter().enumerate() {
        if qubits[i + 1..].contains(q) {
            return Err(Refusal::SameQubit);
        }
    }
    Ok(())
}
