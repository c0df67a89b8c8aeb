// Chains of live rotations, newest first, one for each bucket of labels, in place of the Rust's hash map (DESIGN.md, decision 3: a look writes nothing).
// From word 2 on stand cap heads, then a link for each of cap events (specs/Newest.antt). Links fall, so that every walk ends.
ghost use Rattle.std.specs.Prelude.{◌≡◌, Bool, true, ℕ, ◌+◌, ◌*◌, ◌≤◌, ◌<◌, ◌^◌, length, IfSome, IsSomeAnd, IsOk};
ghost use Rattle.history.specs.Newest.{bucket_of, Chained, Linked, Before, Unlinked};

use pauli::corrupt::Corrupt;

// The bucket of a label, by its low word.
pub fn bucket(low: u64, cap: usize) -> usize
    requires { (1 ≤ cap) × (cap ≤ 2 ^ 24) }
    ensures { (result ≡ bucket_of cap low) × (result < cap) }
{
    let half = low % 0x100000000;
    ((half * (cap as u64)) >> 32) as usize
}

// The event `id` becomes the head of bucket k.
pub fn link(h: &mut [u64], cap: usize, k: usize, id: usize)
    requires { (2 + 2 * cap ≤ length h.old) × (k < cap) × (id < cap) }
    ensures { Linked h.old cap k id h.new }
{
    let head = h[2 + k];
    h[2 + cap + id] = head;
    h[2 + k] = (id + 1) as u64;
}

// The cell of bucket k's chain that names the event `id`: the head, or the link of a newer event. None where the chain does not have the event, or
// does not fall.
fn seek(h: &[u64], cap: usize, k: usize, id: usize) -> Option<usize>
    requires { (2 + 2 * cap ≤ length h.now) × (k < cap) × (id < cap) }
    ensures inside { IfSome result (λ c. c < 2 + 2 * cap) }
    ensures found { (p : ℕ → Bool) (n : ℕ) → n ≤ cap → Chained p n cap k h.now → id < n → p id ≡ true → IsSomeAnd result (Before p n cap k id) }
{
    let mut c = 2 + k;
    let mut v = h[c] as usize;
    let mut last = cap + 1;
    // Each link says where the next event is: there is no range to go over.
    while v > id + 1 {
        if last <= v {
            return None;
        }
        last = v;
        c = 2 + cap + (v - 1);
        v = h[c] as usize;
    }
    if v == id + 1 { Some(c) } else { None }
}

// The event `id` out of bucket k's chain, which has it, or else the words are corrupt.
pub fn unlink(h: &mut [u64], cap: usize, k: usize, id: usize) -> Result<(), Corrupt>
    requires { (2 + 2 * cap ≤ length h.old) × (k < cap) × (id < cap) }
    ensures long { length h.new ≡ length h.old }
    ensures done { (p : ℕ → Bool) (n : ℕ) → n ≤ cap → Chained p n cap k h.old → id < n → p id ≡ true → IsOk result × Unlinked p n cap k id h.old h.new }
{
    let c = seek(h, cap, k, id).ok_or(Corrupt)?;
    h[c] = h[2 + cap + id];
    Ok(())
}
