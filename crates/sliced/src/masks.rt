// The masks of blocks of 64 entries (specs/Blocks.antt): which entries anticommute with an axis, 64 at once.
ghost use Rattle.std.specs.Prelude.{◌≡◌, ℕ, ◌*◌, ◌≤◌, ◌<◌, ◌^◌, length, slice_index};
ghost use Rattle.sliced.specs.Gathered.{gathered, Marks};

use pauli::bits::bits;

// For each of B blocks, whose masks stand side by side: the exclusive or of the X masks (odd is 0) or the Z masks (odd is 1) of the qubits in
// set. The set is walked once for all blocks.
fn gather<const B: usize>(masks: &[u64], n: usize, set: u64, odd: usize) -> [u64; B]
    requires { (B * (2 * n) ≤ length masks.now) × (set < 2 ^ n) × (odd < 2) }
    ensures long { length result ≡ B }
    ensures words { (b : ℕ) → b < B → slice_index result b ≡ gathered masks.now (b * (2 * n)) n odd set }
{
    let mut acc = [0; B];
    for p in bits(set) {
        for b in 0..B {
            acc[b] ^= masks[b * (2 * n) + (2 * p + odd)];
        }
    }
    acc
}

// A word for each of B blocks, whose masks stand side by side: digit i is 1 where entry i of the block anticommutes with the axis (ax, az)
// (two numbers, as in sliced.rt).
pub fn anticommuting<const B: usize>(masks: &[u64], n: usize, ax: u64, az: u64) -> [u64; B]
    requires { (B * (2 * n) ≤ length masks.now) × (ax < 2 ^ n) × (az < 2 ^ n) }
    ensures { (b : ℕ) → b < B → Marks masks.now (b * (2 * n)) n ax az (slice_index result b) }
{
    let x = gather::<B>(masks, n, ax, 1);
    let mut words = gather::<B>(masks, n, az, 0);
    for b in 0..B {
        words[b] ^= x[b];
    }
    words
}
