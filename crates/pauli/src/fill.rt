// Words written over others, one after the other.
ghost use Rattle.std.specs.Prelude.{◌+◌, ◌≤◌, length, slice_index};
ghost use Rattle.pauli.specs.Fill.{Written};

// The `words` words from `at` on become 0.
pub fn clear(s: &mut [u64], at: usize, words: usize)
    requires { at + words ≤ length s.old }
    ensures { Written s.old at words (λ i. 0) s.new }
{
    s[at..at + words].fill(0);
}

// The words from `at` on become those of `of`. No `copy_from_slice`: that would have the archive for C need `memmove` beside `memset`.
pub fn copy(s: &mut [u64], at: usize, of: &[u64])
    requires { at + length of.now ≤ length s.old }
    ensures { Written s.old at (length of.now) (slice_index of.now) s.new }
{
    for (i, word) in of.iter().enumerate() {
        s[at + i] = *word;
    }
}
