// Pauli rows as parts of slices that start anywhere: an X plane and a Z plane of l words each, lowest word first (the Rust's `Row`,
// `support_signature` and `anticommutes`). A row's phase is a number beside its words.
ghost use Rattle.std.specs.Prelude.{◌≡◌, ◌⊎◌, ℕ, ◌+◌, ◌*◌, ◌/◌, ◌%◌, ◌≤◌, ◌<◌, ◌^◌, ◌↔◌, length, ◌*ℤ◌, neg_ℤ, IsTrue};
ghost use Rattle.std.specs.Int.Bits.{bit_and, bit_or};
ghost use Rattle.model.specs.Pauli.{count, sign, anti};
ghost use Rattle.model.specs.Demands.{IsSign};
ghost use Rattle.pauli.specs.Rows.{value, value_at, of_row, answer, blocks, left, signature, Multiplied, Exchanged};

use crate::bits::bits;

// ---- counts

// Whether the sets a and b have an odd number of qubits in common: 1 or 0. With a row's Z plane and another's X plane: whether their
// product changes its sign. `crossed_twice`, `multiply` and frame's `joined` fold the same, but each reads and writes other parts in its one walk:
// one function for them would copy a row first or walk twice.
pub fn crossings(a: &[u64], b: &[u64]) -> u64
    requires { length a.now ≡ length b.now }
    ensures { result ≡ count (bit_and (value a.now) (value b.now)) % 2 }
{
    let mut acc: u64 = 0;
    for (v, w) in a.iter().zip(b) {
        acc ^= v & w;
    }
    u64::from(acc.count_ones() % 2)
}

// How many qubits the sets x and z have in common, modulo 4: the Y factors of a row.
fn ys(x: &[u64], z: &[u64]) -> u64
    requires { length x.now ≡ length z.now }
    ensures { result ≡ count (bit_and (value x.now) (value z.now)) % 4 }
{
    let mut sum: u64 = 0;
    for (v, w) in x.iter().zip(z) {
        sum = (sum + u64::from((v & w).count_ones())) % 4;
    }
    sum
}

// ---- signs

// The sign that the phase of a row gives, if it gives one.
pub fn sign(row: &[u64], phase: u64) -> Option<i8>
    requires { (length row.now % 2 ≡ 0) × (phase < 4) }
    ensures { result ≡ answer (sign (of_row phase row.now)) }
{
    let l = row.len() / 2;
    let y = ys(&row[..l], &row[l..]);
    match (phase + 4 - y) % 4 {
        0 => Some(1),
        2 => Some(-1),
        _ => None,
    }
}

// The product of two signs.
pub fn product(a: i8, b: i8) -> i8
    requires { IsSign a × IsSign b }
    ensures { (result ≡ a *ℤ b) × IsSign result }
{
    a * b
}

// The other sign.
pub fn opposite(a: i8) -> i8
    requires { IsSign a }
    ensures { (result ≡ neg_ℤ a) × IsSign result }
{
    -a
}

// ---- two axes

// Whether the sets x and w, and z and v, have an odd number of qubits in common taken together: 1 or 0. One walk.
fn crossed_twice(x: &[u64], z: &[u64], v: &[u64], w: &[u64]) -> u64
    requires { (length z.now ≡ length x.now) × (length v.now ≡ length x.now) × (length w.now ≡ length x.now) }
    ensures { result ≡ (count (bit_and (value x.now) (value w.now)) + count (bit_and (value z.now) (value v.now))) % 2 }
{
    let mut acc: u64 = 0;
    for i in 0..x.len() {
        acc ^= (x[i] & w[i]) ^ (z[i] & v[i]);
    }
    u64::from(acc.count_ones() % 2)
}

// Whether two axes, of as many words each, anticommute.
pub fn anticommutes(a: &[u64], b: &[u64]) -> bool
    requires { (length a.now ≡ length b.now) × (length a.now % 2 ≡ 0) }
    ensures { IsTrue result ↔ (anti (of_row 0 a.now) (of_row 0 b.now) ≡ 1) }
{
    let l = a.len() / 2;
    crossed_twice(&a[..l], &a[l..], &b[..l], &b[l..]) == 1
}

// Whether two axes are the same, word by word, and so set by set. Not `a == b`: std compares by groups, which made each look 4 % longer.
pub fn same(a: &[u64], b: &[u64]) -> bool
    ensures words { IsTrue result ↔ (a.now ≡ b.now) }
    ensures sets { length a.now ≡ length b.now → IsTrue result ↔ (of_row 0 a.now ≡ of_row 0 b.now) }
{
    if a.len() != b.len() {
        return false;
    }
    for i in 0..a.len() {
        if a[i] != b[i] {
            return false;
        }
    }
    true
}

// ---- the support signature: bit q / l for each qubit q of the axis

// The block of qubit q, of l qubits each. A division by a constant is a product and a shift; one by l is a `div` for each qubit of an axis.
// 192 qubits have l = 3.
fn block_of(q: usize, l: usize) -> usize
    requires { 0 < l }
    ensures { result ≡ q / l }
{
    match l {
        1 => q,
        2 => q / 2,
        3 => q / 3,
        _ => q / l,
    }
}

// sig with the bits of the qubits of word j, whose digits are w.
fn marked(sig: u64, w: u64, j: usize, l: usize) -> u64
    requires { (j < l) × (l ≤ 362) }
    ensures { (u : ℕ) → bit_or result (blocks l (left u j 0) 64) ≡ bit_or sig (blocks l (left u j w) 64) }
{
    let mut sum = sig;
    for p in bits(w) {
        sum |= 1 << block_of(64 * j + p, l);
    }
    sum
}

// The union of the sets x and z, of l words each, by blocks of l qubits: a digit for each.
fn support(x: &[u64], z: &[u64]) -> u64
    requires { (length x.now ≡ length z.now) × (length x.now ≤ 362) }
    ensures { result ≡ signature (length x.now) (value x.now) (value z.now) }
{
    let l = x.len();
    let mut sig: u64 = 0;
    for j in 0..l {
        sig = marked(sig, x[j] | z[j], j, l);
    }
    sig
}

// The signature of an axis of l words in a plane.
pub fn signature(axis: &[u64], l: usize) -> u64
    requires { (length axis.now ≡ 2 * l) × (l ≤ 362) }
    ensures { result ≡ signature l (of_row 0 axis.now).x (of_row 0 axis.now).z }
{
    support(&axis[..l], &axis[l..])
}

// ---- two rows of one slice, by their places: two parts of one `&mut` slice cannot be lent at a time

// The row of 2 l words at `at` becomes its exclusive or with the row at `by`, which does not overlap it. The answer is 1 where the
// first row's Z set met the second's X set in an odd count, else 0: crossing and exclusive or in one walk.
pub fn multiply(frame: &mut [u64], at: usize, by: usize, l: usize) -> u64
    requires { (at + 2 * l ≤ length frame.old) × (by + 2 * l ≤ length frame.old) × ((at + 2 * l ≤ by) ⊎ (by + 2 * l ≤ at)) }
    ensures crossed { result ≡ count (bit_and (value_at frame.old (at + l) l) (value_at frame.old by l)) % 2 }
    ensures done { Multiplied frame.old at by (2 * l) frame.new }
{
    let mut acc: u64 = 0;
    for i in 0..l {
        let x = frame[by + i];
        let z = frame[at + l + i];
        acc ^= z & x;
        frame[at + i] ^= x;
        frame[at + l + i] = z ^ frame[by + l + i];
    }
    u64::from(acc.count_ones() % 2)
}

// The rows of `words` words at `at` and at `by`, which do not overlap, change places.
pub fn exchange(frame: &mut [u64], at: usize, by: usize, words: usize)
    requires { (at + words ≤ length frame.old) × (by + words ≤ length frame.old) × ((at + words ≤ by) ⊎ (by + words ≤ at)) }
    ensures { Exchanged frame.old at by words frame.new }
{
    for i in 0..words {
        let a = frame[at + i];
        let b = frame[by + i];
        frame[at + i] = b;
        frame[by + i] = a;
    }
}
