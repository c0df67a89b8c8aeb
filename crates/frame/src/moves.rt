// The three operations of which every gate is made: a row turned by a power of i, a row multiplied by another, two rows exchanged;
// each for phases, words and labels alike. A frame has m = 2n rows, x[0], z[0], x[1], z[1], .., of 2 l + 1 words each, phase first,
// and behind them a label of two words for each. Where a phase met is none (4 or more), the words are no frame: `Corrupt`.
ghost use Rattle.std.specs.Prelude.{◌≡◌, true, ◌+◌, ◌≤◌, ◌<◌, ◌↔◌, length, is_ok, IsErr, IfOk, slice_index};
ghost use Rattle.model.specs.Frame.{Ops};
ghost use Rattle.pauli.specs.Rows.{Multiplied};
ghost use Rattle.frame.specs.Places.{Sized, turn_row, times_row, swap_row, Moves};

use pauli::corrupt::Corrupt;

// The phase of the row at `at`, a power of i.
pub fn phase_at(s: &[u64], at: usize) -> Result<u64, Corrupt>
    requires { at < length s.now }
    ensures phase { IfOk result (λ p. (p ≡ slice_index s.now at) × (p < 4)) }
    ensures none { IsErr result ↔ (4 ≤ slice_index s.now at) }
{
    let phase = s[at];
    if phase < 4 { Ok(phase) } else { Err(Corrupt) }
}

// The row g, times i^by. The phase is tested here, as in `times`, and not by `phase_at`: with that, gates took a fifth to a third more time (docs/SPEED.md).
pub fn turn(s: &mut [u64], m: usize, l: usize, g: usize, by: u64) -> Result<(), Corrupt>
    requires { Sized m l s.old × (g < m) × (by < 4) }
    ensures { Moves m l (λ (A : Type 0) (o : Ops A). turn_row o by g) s.old (is_ok result) s.new }
{
    let at = g * (2 * l + 1);
    let p = s[at];
    if p >= 4 {
        return Err(Corrupt);
    }
    s[at] = (p + by) % 4;
    Ok(())
}

// The label at `at` becomes its exclusive or with the one at `by`.
fn mix(s: &mut [u64], at: usize, by: usize)
    requires { (at + 2 ≤ length s.old) × (by + 2 ≤ length s.old) × (at ≡ by → ⊥) × (at ≡ by + 1 → ⊥) × (by ≡ at + 1 → ⊥) }
    ensures { Multiplied s.old at by 2 s.new }
{
    s[at] ^= s[by];
    s[at + 1] ^= s[by + 1];
}

// The row g becomes its product with the row k, times i^by. (Six parameters: lib.rt says why the words and their sizes are three.)
pub fn times(s: &mut [u64], m: usize, l: usize, g: usize, k: usize, by: u64) -> Result<(), Corrupt>
    requires { Sized m l s.old × (g < m) × (k < m) × (g ≡ k → ⊥) × (by < 4) }
    ensures { Moves m l (λ (A : Type 0) (o : Ops A). times_row o by g k) s.old (is_ok result) s.new }
{
    let w = 2 * l + 1;
    let at = g * w;
    let of = k * w;
    let p = s[at];
    let q = s[of];
    if p >= 4 || q >= 4 {
        return Err(Corrupt);
    }
    let odd = pauli::rows::multiply(s, at + 1, of + 1, l);
    s[at] = (p + q + 2 * odd + by) % 4;
    let tags = m * w;
    mix(s, tags + 2 * g, tags + 2 * k);
    Ok(())
}

// The rows g and k change places.
pub fn swap(s: &mut [u64], m: usize, l: usize, g: usize, k: usize)
    requires { Sized m l s.old × (g < m) × (k < m) × (g ≡ k → ⊥) }
    ensures { Moves m l (λ (A : Type 0) (o : Ops A). swap_row g k) s.old true s.new }
{
    let w = 2 * l + 1;
    pauli::rows::exchange(s, g * w, k * w, w);
    let tags = m * w;
    pauli::rows::exchange(s, tags + 2 * g, tags + 2 * k, 2);
}
