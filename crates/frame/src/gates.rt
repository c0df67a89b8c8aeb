// Every gate and turn of 01, on both frames at once: one or two moves of rows each (the Rust's `apply_clifford` and the frames'
// methods). They fail where a move met a phase that is none; h and swap meet none.
ghost use Rattle.std.specs.Prelude.{◌≡◌, true, ◌*◌, ◌<◌, is_ok};
ghost use Rattle.model.specs.Frame as Model;
ghost use Rattle.model.specs.Frame.{Ops, x_gate, y_gate, z_gate, s_gate, sdg_gate, sx_gate, cnot_gate, cz_gate, swap_gate, cy_gate, gate_s, turn_z, turn, kind_x, kind_y};
ghost use Rattle.frame.specs.Places.{Sized, applied, Does};

use crate::moves::{swap, times};
use pauli::corrupt::Corrupt;

// ---- gates of one move or two: each is a line or two over `turn`, `quarter`, `times` and `swap`, which take what differs as a parameter. One
// function for two gates would need a name for each of its cases: no plainer.

pub fn gate_h(s: &mut [u64], n: usize, l: usize, q: usize)
    requires { Sized (2 * n) l s.old × (q < n) }
    ensures { Does n l (applied (Model.h_gate q)) s.old true s.new }
{
    swap(s, 2 * n, l, 2 * q, 2 * q + 1);
}

pub fn gate_x(s: &mut [u64], n: usize, l: usize, q: usize) -> Result<(), Corrupt>
    requires { Sized (2 * n) l s.old × (q < n) }
    ensures { Does n l (applied (x_gate q)) s.old (is_ok result) s.new }
{
    crate::moves::turn(s, 2 * n, l, 2 * q + 1, 2)
}

pub fn gate_z(s: &mut [u64], n: usize, l: usize, q: usize) -> Result<(), Corrupt>
    requires { Sized (2 * n) l s.old × (q < n) }
    ensures { Does n l (applied (z_gate q)) s.old (is_ok result) s.new }
{
    crate::moves::turn(s, 2 * n, l, 2 * q, 2)
}

// s and sdg: x[q] = x[q]·z[q] with phase + by.
fn quarter(s: &mut [u64], n: usize, l: usize, q: usize, by: u64) -> Result<(), Corrupt>
    requires { Sized (2 * n) l s.old × (q < n) × (by < 4) }
    ensures { Does n l (λ (A : Type 0) (o : Ops A). gate_s o by q) s.old (is_ok result) s.new }
{
    times(s, 2 * n, l, 2 * q, 2 * q + 1, by)
}

#[tactic(auto, unfolding(model::specs::Frame::gate))]
pub fn gate_s(s: &mut [u64], n: usize, l: usize, q: usize) -> Result<(), Corrupt>
    requires { Sized (2 * n) l s.old × (q < n) }
    ensures { Does n l (applied (s_gate q)) s.old (is_ok result) s.new }
{
    quarter(s, n, l, q, 3)
}

#[tactic(auto, unfolding(model::specs::Frame::gate))]
pub fn gate_sdg(s: &mut [u64], n: usize, l: usize, q: usize) -> Result<(), Corrupt>
    requires { Sized (2 * n) l s.old × (q < n) }
    ensures { Does n l (applied (sdg_gate q)) s.old (is_ok result) s.new }
{
    quarter(s, n, l, q, 1)
}

pub fn gate_cnot(s: &mut [u64], n: usize, l: usize, c: usize, t: usize) -> Result<(), Corrupt>
    requires { Sized (2 * n) l s.old × (c < n) × (t < n) × (c ≡ t → ⊥) }
    ensures { Does n l (applied (cnot_gate c t)) s.old (is_ok result) s.new }
{
    times(s, 2 * n, l, 2 * c, 2 * t, 0)?;
    times(s, 2 * n, l, 2 * t + 1, 2 * c + 1, 0)
}

pub fn gate_cz(s: &mut [u64], n: usize, l: usize, c: usize, t: usize) -> Result<(), Corrupt>
    requires { Sized (2 * n) l s.old × (c < n) × (t < n) × (c ≡ t → ⊥) }
    ensures { Does n l (applied (cz_gate c t)) s.old (is_ok result) s.new }
{
    times(s, 2 * n, l, 2 * c, 2 * t + 1, 0)?;
    times(s, 2 * n, l, 2 * t, 2 * c + 1, 0)
}

pub fn gate_swap(s: &mut [u64], n: usize, l: usize, a: usize, b: usize)
    requires { Sized (2 * n) l s.old × (a < n) × (b < n) × (a ≡ b → ⊥) }
    ensures { Does n l (applied (swap_gate a b)) s.old true s.new }
{
    swap(s, 2 * n, l, 2 * a, 2 * b);
    swap(s, 2 * n, l, 2 * a + 1, 2 * b + 1);
}

// ---- gates made of these: between two h nothing returns, so that a failure leaves the rows where they were

pub fn gate_y(s: &mut [u64], n: usize, l: usize, q: usize) -> Result<(), Corrupt>
    requires { Sized (2 * n) l s.old × (q < n) }
    ensures { Does n l (applied (y_gate q)) s.old (is_ok result) s.new }
{
    gate_x(s, n, l, q)?;
    gate_z(s, n, l, q)
}

pub fn gate_sx(s: &mut [u64], n: usize, l: usize, q: usize) -> Result<(), Corrupt>
    requires { Sized (2 * n) l s.old × (q < n) }
    ensures { Does n l (applied (sx_gate q)) s.old (is_ok result) s.new }
{
    gate_h(s, n, l, q);
    let done = gate_s(s, n, l, q);
    gate_h(s, n, l, q);
    done
}

pub fn gate_cy(s: &mut [u64], n: usize, l: usize, c: usize, t: usize) -> Result<(), Corrupt>
    requires { Sized (2 * n) l s.old × (c < n) × (t < n) × (c ≡ t → ⊥) }
    ensures { Does n l (applied (cy_gate c t)) s.old (is_ok result) s.new }
{
    gate_sdg(s, n, l, t)?;
    gate_cnot(s, n, l, c, t)?;
    gate_s(s, n, l, t)
}

// ---- turns

// A turn by k of kind z or p: s, z or sdg for 2, 4, 6, and nothing else. k is the public call's number of eighths; gates as closures in a table
// would say no more than the match.
pub fn turn_z(s: &mut [u64], n: usize, l: usize, k: u64, q: usize) -> Result<(), Corrupt>
    requires { Sized (2 * n) l s.old × (q < n) }
    ensures { Does n l (λ (A : Type 0) (o : Ops A). turn_z o k q) s.old (is_ok result) s.new }
{
    match k {
        2 => gate_s(s, n, l, q),
        4 => gate_z(s, n, l, q),
        6 => gate_sdg(s, n, l, q),
        _ => Ok(()),
    }
}

pub fn turn_x(s: &mut [u64], n: usize, l: usize, k: u64, q: usize) -> Result<(), Corrupt>
    requires { Sized (2 * n) l s.old × (q < n) }
    ensures { Does n l (λ (A : Type 0) (o : Ops A). turn o kind_x k q) s.old (is_ok result) s.new }
{
    gate_h(s, n, l, q);
    let done = turn_z(s, n, l, k, q);
    gate_h(s, n, l, q);
    done
}

// For y first sdg, and last s: the turns by 6 and 2 of kind z.
pub fn turn_y(s: &mut [u64], n: usize, l: usize, k: u64, q: usize) -> Result<(), Corrupt>
    requires { Sized (2 * n) l s.old × (q < n) }
    ensures { Does n l (λ (A : Type 0) (o : Ops A). turn o kind_y k q) s.old (is_ok result) s.new }
{
    turn_z(s, n, l, 6, q)?;
    turn_x(s, n, l, k, q)?;
    turn_z(s, n, l, 2, q)
}
