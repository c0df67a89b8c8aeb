// The set digits of a word, lowest first (the Rust's `bits`): `for p in bits(w) { .. }`. proofs/Walk.antt turns such a loop into a statement about
// each set digit.
ghost use Rattle.std.specs.Prelude.{◌≡◌, ◌<◌};
ghost use Rattle.std.specs.Iterator.{at_most};
ghost use Rattle.pauli.specs.Digits.{Lowest, Rest, GivesDigit};

// The place of the lowest set digit of w.
pub fn lowest(w: u64) -> u32
    requires { 0 < w }
    ensures { Lowest w result }
{
    w.trailing_zeros()
}

// w without its lowest set digit.
pub fn rest(w: u64) -> u64
    requires { 0 < w }
    ensures { Rest w result }
{
    w & (w - 1)
}

// The digits of a word that a walk has left to give.
#[derive(Clone, Copy, Debug, PartialEq, Eq)]
pub struct SetBits {
    left: u64,
}

// A walk over the set digits of w.
pub fn bits(w: u64) -> SetBits
    ensures { result.left ≡ w }
{
    SetBits { left: w }
}

impl Iterator for SetBits {
    type Item = usize;

    ghost next_gives = { λ s r t. GivesDigit s.left r t.left };

    ghost remaining = { λ s. at_most s.left };

    fn next(&mut self) -> Option<usize> {
        if self.left == 0 {
            return None;
        }
        let p = lowest(self.left);
        self.left = rest(self.left);
        Some(p as usize)
    }
}
