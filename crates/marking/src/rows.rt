// The axes to record, read off the frames' words f into a lent row of 2 l + 1 words, phase first (the Rust's buffer): the store that is written
// cannot be read at the same time.
ghost use Rattle.std.specs.Prelude.{◌≡◌, cond, ℕ, ◌+◌, ◌*◌, ◌<◌, length, get_or, IsOk};
ghost use Rattle.model.specs.Pauli.{Pauli, times};
ghost use Rattle.model.specs.Frame.{Rows, axis, z_at, paulis};
ghost use Rattle.model.specs.Sketch.{Label};
ghost use Rattle.model.specs.Calls.{seven};
ghost use Rattle.frame.specs.Places.{Sized, IsRow, Held};
ghost use Rattle.frame.specs.Axes.{axis_of, kind_of};
ghost use Rattle.marking.specs.Axes.{Sets};

use frame::axes::{Basis, Kind, axis_row, y_product};
use pauli::corrupt::Corrupt;

// The words and their sizes stay three parameters here, as in `frame` (frame/src/lib.rt).

// The row x[q] or z[q].
pub fn row_into(f: &[u64], n: usize, l: usize, basis: Basis, q: usize, out: &mut [u64])
    requires { Sized (2 * n) l f.now × (q < n) × (length out.old ≡ 2 * l + 1) }
    ensures { (r : Rows Pauli) (k : Rows Label) → Held n l r k f.now → IsRow l out.new 0 (axis_of basis r q) }
{
    pauli::fill::copy(out, 0, axis_row(f, n, l, basis, q));
}

// The axis of a kind. It fails where a phase met is none.
pub fn axis_into(
    f: &[u64],
    n: usize,
    l: usize,
    kind: Kind,
    q: usize,
    out: &mut [u64],
) -> Result<(), Corrupt>
    requires { Sized (2 * n) l f.now × (q < n) × (length out.old ≡ 2 * l + 1) }
    ensures { (r : Rows Pauli) (k : Rows Label) → Held n l r k f.now → IsOk result × IsRow l out.new 0 (axis paulis (kind_of kind) q r) }
{
    match kind {
        Kind::X => {
            row_into(f, n, l, Basis::X, q, out);
            Ok(())
        }
        Kind::Y => y_product(f, n, l, q, out),
        Kind::Z | Kind::P => {
            row_into(f, n, l, Basis::Z, q, out);
            Ok(())
        }
    }
}

// The sets of `out` become their exclusive or with those of the row, if `on`; phases are ignored.
fn join(out: &mut [u64], row: &[u64], on: bool)
    requires { length out.old ≡ length row.now }
    ensures { (l : ℕ) (p q : Pauli) → length row.now ≡ 2 * l + 1 → Sets l out.old p → Sets l row.now q → Sets l out.new (cond «on» (times p q) p) }
{
    if on {
        for i in 1..row.len() {
            out[i] ^= row[i];
        }
    }
}

// Product i, from 0 to 6, of z[a], z[b] and the target row, x[t] or z[t]: "subsets 1 to 7 with bit 0 = a, 1 = b, 2 = target", "phases ignored".
pub fn product_into(
    f: &[u64],
    n: usize,
    l: usize,
    basis: Basis,
    a: usize,
    b: usize,
    t: usize,
    i: usize,
    out: &mut [u64],
)
    requires { Sized (2 * n) l f.now × (a < n) × (b < n) × (t < n) × (i < 7) × (length out.old ≡ 2 * l + 1) }
    ensures { (r : Rows Pauli) (k : Rows Label) → Held n l r k f.now → Sets l out.new (get_or (seven (z_at paulis r a) (z_at paulis r b) (axis_of basis r t)) i paulis.unit) }
{
    let subset = i + 1;
    pauli::fill::clear(out, 1, 2 * l);
    join(out, axis_row(f, n, l, Basis::Z, a), subset % 2 == 1);
    join(out, axis_row(f, n, l, Basis::Z, b), subset / 2 % 2 == 1);
    join(out, axis_row(f, n, l, basis, t), subset / 4 == 1);
}
