// What is recorded, as one value, and its records one by one: each reads an axis off the frames into the lent row `out`, then records it on the
// history's part of the store. They fail where a stored value is bad.
ghost use Rattle.std.specs.Prelude.{◌≡◌, ◌+◌, ◌*◌, ◌<◌, length, is_ok};
ghost use Rattle.history.specs.Recordings.{SignedBody};
ghost use Rattle.store.specs.Promises.{qubit_number};
ghost use Rattle.store.specs.Checks.{Fit};
ghost use Rattle.marking.specs.Marks.{qubits_of, events_of, rotation_about, blocker_at, product_at, products, Puts, Records};

use super::rows::{axis_into, product_into, row_into};
use frame::axes::{Basis, Kind, Tag, label, row_sign};
use history::events::Body;
use pauli::corrupt::Corrupt;
use store::header::Sizes;

#[derive(Clone, Copy, Debug, PartialEq, Eq, Hash)]
pub enum Mark {
    Rotation { kind: Kind, q: usize, tag: u32 },
    Measure(usize),
    Reset(usize),
    Ccx(usize, usize, usize),
    Ccz(usize, usize, usize),
}

// Records an event whose axis are the words of `row` behind its phase.
fn put(s: &mut [u64], z: &Sizes, row: &[u64], body: Body) -> Result<(), Corrupt>
    requires { Fit z.now s.old × (length row.now ≡ 2 * z.now.l + 1) × SignedBody body }
    ensures fit { Fit z.now s.new }
    ensures done { Puts row.now body s.old (is_ok result) s.new }
{
    history::record::record(&mut s[z.at..z.end], &z.layout(), &row[1..], body)?;
    Ok(())
}

// The qubits and the lent row stay parameters of their own below: each is of one mark, and a struct would be made and taken apart once.

// Records a rotation.
fn rotate(
    s: &mut [u64],
    z: &Sizes,
    kind: Kind,
    q: usize,
    tag: u32,
    out: &mut [u64],
) -> Result<(), Corrupt>
    requires { Fit z.now s.old × (length out.old ≡ 2 * z.now.l + 1) × (q < z.now.n) }
    ensures fit { Fit z.now s.new }
    ensures done { Records (rotation_about kind q tag) s.old (is_ok result) s.new }
{
    let Tag { high, low } = label(&s[14..z.at], z.n, z.l, kind, q);
    axis_into(&s[14..z.at], z.n, z.l, kind, q, out)?;
    let Some(sign) = row_sign(out) else {
        return Err(Corrupt);
    };
    put(
        s,
        z,
        out,
        Body::Rotation {
            tag,
            sign,
            high,
            low,
        },
    )
}

// Records the row x[q] or z[q] as a blocker.
fn block(s: &mut [u64], z: &Sizes, basis: Basis, q: usize, out: &mut [u64]) -> Result<(), Corrupt>
    requires { Fit z.now s.old × (length out.old ≡ 2 * z.now.l + 1) × (q < z.now.n) }
    ensures fit { Fit z.now s.new }
    ensures done { Records (blocker_at basis q) s.old (is_ok result) s.new }
{
    row_into(&s[14..z.at], z.n, z.l, basis, q, out);
    put(s, z, out, Body::Blocker)
}

// Records product i of z[a], z[b] and the target row, x[t] or z[t], as a blocker.
fn block_product(
    s: &mut [u64],
    z: &Sizes,
    basis: Basis,
    a: usize,
    b: usize,
    t: usize,
    i: usize,
    out: &mut [u64],
) -> Result<(), Corrupt>
    requires { Fit z.now s.old × (length out.old ≡ 2 * z.now.l + 1) × (a < z.now.n) × (b < z.now.n) × (t < z.now.n) × (i < 7) }
    ensures fit { Fit z.now s.new }
    ensures done { Records (product_at basis a b t i) s.old (is_ok result) s.new }
{
    product_into(&s[14..z.at], z.n, z.l, basis, a, b, t, i, out);
    put(s, z, out, Body::Blocker)
}

// Records the seven products.
fn block_products(
    s: &mut [u64],
    z: &Sizes,
    basis: Basis,
    a: usize,
    b: usize,
    t: usize,
    out: &mut [u64],
) -> Result<(), Corrupt>
    requires { Fit z.now s.old × (length out.old ≡ 2 * z.now.l + 1) × (a < z.now.n) × (b < z.now.n) × (t < z.now.n) }
    ensures fit { Fit z.now s.new }
    ensures done { Records (products basis a b t) s.old (is_ok result) s.new }
{
    for i in 0..7 {
        block_product(s, z, basis, a, b, t, i, out)?;
    }
    Ok(())
}

// Records z[q], then x[q].
fn block_both(s: &mut [u64], z: &Sizes, q: usize, out: &mut [u64]) -> Result<(), Corrupt>
    requires { Fit z.now s.old × (length out.old ≡ 2 * z.now.l + 1) × (q < z.now.n) }
    ensures fit { Fit z.now s.new }
    ensures done { Records (events_of (Mark.Reset q)) s.old (is_ok result) s.new }
{
    block(s, z, Basis::Z, q, out)?;
    block(s, z, Basis::X, q, out)
}

// Records all events of a mark.
pub fn marked(s: &mut [u64], z: &Sizes, mark: Mark, out: &mut [u64]) -> Result<(), Corrupt>
    requires { Fit z.now s.old × (length out.old ≡ 2 * z.now.l + 1) × (qubit_number z.now.n (qubits_of mark) ≡ 0) }
    ensures { Records (events_of mark) s.old (is_ok result) s.new }
{
    match mark {
        Mark::Rotation { kind, q, tag } => rotate(s, z, kind, q, tag, out),
        Mark::Measure(q) => block(s, z, Basis::Z, q, out),
        Mark::Reset(q) => block_both(s, z, q, out),
        Mark::Ccx(a, b, t) => block_products(s, z, Basis::X, a, b, t, out),
        Mark::Ccz(a, b, t) => block_products(s, z, Basis::Z, a, b, t, out),
    }
}
