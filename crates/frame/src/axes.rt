// The axis of a rotation, read off a frame's words: the row of a qubit lent in place, its sign, the product of both rows for the axis
// y, and the label of each kind of axis.
ghost use Rattle.std.specs.Prelude.{◌≡◌, ℕ, ◌+◌, ◌*◌, ◌%◌, ◌≤◌, ◌<◌, length, slice_index, None, IfSome, IsOk};
ghost use Rattle.std.specs.Int.Bits.{bit_and};
ghost use Rattle.model.specs.Pauli.{Pauli, count, sign};
ghost use Rattle.model.specs.Frame.{Rows, axis, kind_y, paulis};
ghost use Rattle.model.specs.Sketch.{Label, labels};
ghost use Rattle.model.specs.Demands.{IsSign};
ghost use Rattle.pauli.specs.Rows.{value_at, answer};
ghost use Rattle.frame.specs.Places.{Sized, IsRow, IsLabel, Held};
ghost use Rattle.frame.specs.Axes.{Reaches, words_of_row, either, axis_of, Both, kind_of, tag_of};

use crate::moves::phase_at;
use pauli::corrupt::Corrupt;

// ---- rows

// Which of a qubit's two rows: x[q] or z[q].
#[derive(Clone, Copy, Debug, PartialEq, Eq, Hash)]
pub enum Basis {
    X,
    Z,
}

// The row of qubit q, phase first, as a part of one of two lent slices: xs is the frame from its first X row on, zs from its first Z
// row on. It stays beside `axis_row`: docs/DECISIONS.md names it for what it promises of two slices.
pub fn row_of<'a>(xs: &'a [u64], zs: &'a [u64], basis: Basis, q: usize, l: usize) -> &'a [u64]
    requires { Reaches l q xs.now × Reaches l q zs.now }
    ensures { result.now ≡ words_of_row l q (either basis xs.now zs.now) }
{
    let w = 2 * l + 1;
    let at = q * 2 * w;
    match basis {
        Basis::X => &xs[at..at + w],
        Basis::Z => &zs[at..at + w],
    }
}

// The row x[q] or z[q] of a frame.
pub fn axis_row(s: &[u64], n: usize, l: usize, basis: Basis, q: usize) -> &[u64]
    requires { Sized (2 * n) l s.now × (q < n) }
    ensures long { length result.now ≡ 2 * l + 1 }
    ensures row { (f : Rows Pauli) (k : Rows Label) → Held n l f k s.now → IsRow l result.now 0 (axis_of basis f q) }
{
    row_of(&s[..], &s[2 * l + 1..], basis, q, l)
}

// The sign of a row of 2 l + 1 words, phase first, if it has one.
pub fn row_sign(row: &[u64]) -> Option<i8>
    requires { length row.now % 2 ≡ 1 }
    ensures sign { (l : ℕ) (p : Pauli) → length row.now ≡ 2 * l + 1 → IsRow l row.now 0 p → result ≡ answer (sign p) }
    ensures one { IfSome result IsSign }
    ensures bad { 4 ≤ slice_index row.now 0 → result ≡ None }
{
    let Ok(phase) = phase_at(row, 0) else {
        return None;
    };
    pauli::rows::sign(&row[1..], phase)
}

// ---- the product of a qubit's rows

// The exclusive or of the rows of 2 l words at `at` and at `by`, written to `out` behind its first word. The answer is 1 where the
// first row's Z set meets the second's X set in an odd count, else 0: one walk.
fn joined(s: &[u64], at: usize, by: usize, l: usize, out: &mut [u64]) -> u64
    requires { (at + 2 * l ≤ length s.now) × (by + 2 * l ≤ length s.now) × (length out.old ≡ 2 * l + 1) }
    ensures crossed { result ≡ count (bit_and (value_at s.now (at + l) l) (value_at s.now by l)) % 2 }
    ensures done { Both s.now at by (2 * l) out.new }
{
    let mut acc: u64 = 0;
    for i in 0..l {
        let x = s[by + i];
        let z = s[at + l + i];
        acc ^= z & x;
        out[1 + i] = s[at + i] ^ x;
        out[1 + l + i] = z ^ s[by + l + i];
    }
    u64::from(acc.count_ones() % 2)
}

// The axis y of qubit q, x[q] times z[q] with phase + 1, written to `out`, whatever it held. It fails where a phase met is none.
pub fn y_product(s: &[u64], n: usize, l: usize, q: usize, out: &mut [u64]) -> Result<(), Corrupt>
    requires { Sized (2 * n) l s.now × (q < n) × (length out.old ≡ 2 * l + 1) }
    ensures long { length out.new ≡ 2 * l + 1 }
    ensures row { (f : Rows Pauli) (k : Rows Label) → Held n l f k s.now → IsOk result × IsRow l out.new 0 (axis paulis kind_y q f) }
{
    let w = 2 * l + 1;
    let at = q * 2 * w;
    let by = at + w;
    let p = phase_at(s, at)?;
    let t = phase_at(s, by)?;
    let odd = joined(s, at + 1, by + 1, l, out);
    out[0] = (p + t + 2 * odd + 1) % 4;
    Ok(())
}

// ---- labels

// The kinds of axis.
#[derive(Clone, Copy, Debug, PartialEq, Eq, Hash)]
pub enum Kind {
    X,
    Y,
    Z,
    P,
}

// The two words of a label.
#[derive(Clone, Copy, Debug, PartialEq, Eq, Hash)]
pub struct Tag {
    pub high: u64,
    pub low: u64,
}

impl Tag {
    ghost use Rattle.model.specs.Sketch.{label_xor};
    ghost use Rattle.frame.specs.Axes.{tag_of};

    // The label of a product: the exclusive or of both labels.
    fn xor(self, other: Tag) -> Tag
        ensures { tag_of result ≡ label_xor (tag_of self) (tag_of other) }
    {
        Tag {
            high: self.high ^ other.high,
            low: self.low ^ other.low,
        }
    }
}

// The label at `at`.
fn tag_at(s: &[u64], at: usize) -> Tag
    requires { at + 2 ≤ length s.now }
    ensures { IsLabel s.now at (tag_of result) }
{
    Tag {
        high: s[at],
        low: s[at + 1],
    }
}

// The label of the axis of a kind. The place of the labels, behind the rows, is written out: a function of n, l and q would be as long.
pub fn label(s: &[u64], n: usize, l: usize, kind: Kind, q: usize) -> Tag
    requires { Sized (2 * n) l s.now × (q < n) }
    ensures { (f : Rows Pauli) (k : Rows Label) → Held n l f k s.now → tag_of result ≡ axis labels (kind_of kind) q k }
{
    let at = 2 * n * (2 * l + 1) + 4 * q;
    match kind {
        Kind::X => tag_at(s, at),
        Kind::Y => tag_at(s, at).xor(tag_at(s, at + 2)),
        Kind::Z | Kind::P => tag_at(s, at + 2),
    }
}
