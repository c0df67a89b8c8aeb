// A gate as one value with its qubits, and which of the frames' functions it is.
ghost use Rattle.std.specs.Prelude.{◌*◌, ◌<◌, is_ok};
ghost use Rattle.model.specs.Frame.{Ops, turn};
ghost use Rattle.model.specs.Demands.{Fits};
ghost use Rattle.frame.specs.Places.{Sized, applied, Does};
ghost use Rattle.frame.specs.Axes.{kind_of};
ghost use Rattle.gating.specs.Gates.{gate_of};

use frame::axes::Kind;
use pauli::corrupt::Corrupt;

// 01's gates. Of a gate on two qubits the first is the control.
#[derive(Clone, Copy, Debug, PartialEq, Eq, Hash)]
pub enum Gate {
    H(usize),
    X(usize),
    Y(usize),
    Z(usize),
    S(usize),
    Sdg(usize),
    Sx(usize),
    Cnot(usize, usize),
    Cz(usize, usize),
    Swap(usize, usize),
    Cy(usize, usize),
}

// The gate is done to both frames, whose words f are. It fails where a phase met is none.
pub fn act(f: &mut [u64], n: usize, l: usize, g: Gate) -> Result<(), Corrupt>
    requires { Sized (2 * n) l f.old × Fits n (gate_of g) }
    ensures { Does n l (applied (gate_of g)) f.old (is_ok result) f.new }
{
    match g {
        Gate::H(q) => {
            frame::gates::gate_h(f, n, l, q);
            Ok(())
        }
        Gate::X(q) => frame::gates::gate_x(f, n, l, q),
        Gate::Y(q) => frame::gates::gate_y(f, n, l, q),
        Gate::Z(q) => frame::gates::gate_z(f, n, l, q),
        Gate::S(q) => frame::gates::gate_s(f, n, l, q),
        Gate::Sdg(q) => frame::gates::gate_sdg(f, n, l, q),
        Gate::Sx(q) => frame::gates::gate_sx(f, n, l, q),
        Gate::Cnot(c, t) => frame::gates::gate_cnot(f, n, l, c, t),
        Gate::Cz(c, t) => frame::gates::gate_cz(f, n, l, c, t),
        Gate::Swap(a, b) => {
            frame::gates::gate_swap(f, n, l, a, b);
            Ok(())
        }
        Gate::Cy(c, t) => frame::gates::gate_cy(f, n, l, c, t),
    }
}

// The words and their sizes stay three parameters, as in `frame` (frame/src/lib.rt).
// The turn by k of a kind is done to both frames. p turns as z, in an arm of its own: a p by nothing is then one value changed (must-fail/p_by_nothing).
pub fn turned(
    f: &mut [u64],
    n: usize,
    l: usize,
    kind: Kind,
    k: u64,
    q: usize,
) -> Result<(), Corrupt>
    requires { Sized (2 * n) l f.old × (q < n) }
    ensures { Does n l (λ (A : Type 0) (o : Ops A). turn o (kind_of kind) k q) f.old (is_ok result) f.new }
{
    match kind {
        Kind::X => frame::gates::turn_x(f, n, l, k, q),
        Kind::Y => frame::gates::turn_y(f, n, l, k, q),
        Kind::Z => frame::gates::turn_z(f, n, l, k, q),
        Kind::P => frame::gates::turn_z(f, n, l, k, q),
    }
}
