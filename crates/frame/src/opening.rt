// The fresh frames of an opening, written over any words: row x[q] is X on q, row z[q] is Z on q, phases 0 (`fresh` of `model`), and the
// labels as they are given.
ghost use Rattle.std.specs.Prelude.{◌≡◌, ◌+◌, ◌*◌, ◌^◌, ◌≤◌, ◌<◌, length};
ghost use Rattle.model.specs.Frame.{fresh};
ghost use Rattle.model.specs.Sketch.{label_rows};
ghost use Rattle.frame.specs.Places.{Sized, Held};
ghost use Rattle.pauli.specs.Fill.{Written};
ghost use Rattle.frame.specs.Begun.{only, Begun};

// The row at `at` becomes phase 0 and, in the 2 l words of its planes, the digit r of word j alone.
fn single(s: &mut [u64], at: usize, l: usize, j: usize, r: usize)
    requires { (at + (2 * l + 1) ≤ length s.old) × (j < 2 * l) × (r < 64) }
    ensures { Written s.old at (2 * l + 1) (only (1 + j) (2 ^ r)) s.new }
{
    pauli::fill::clear(s, at, 2 * l + 1);
    s[at + (1 + j)] = 1u64 << r;
}

// The rows of all n qubits become fresh.
fn begin(s: &mut [u64], n: usize, l: usize)
    requires { Sized (2 * n) l s.old × (n ≤ 64 * l) }
    ensures { (length s.new ≡ length s.old) × Begun n l s.new }
{
    for q in 0..n {
        let w = 2 * l + 1;
        let g = 2 * q;
        let j = q / 64;
        let r = q % 64;
        single(s, g * w, l, j, r);
        single(s, (g + 1) * w, l, l + j, r);
    }
}

// Both frames as at opening: n qubits in l words to a plane, with the labels `tags`, per qubit X high, X low, Z high, Z low.
pub fn fresh(s: &mut [u64], n: usize, l: usize, tags: &[u64])
    requires { Sized (2 * n) l s.old × (length tags.now ≡ 4 * n) × (n ≤ 64 * l) }
    ensures { Held n l (fresh n) (label_rows tags.now) s.new }
{
    begin(s, n, l);
    let at = s.len() - tags.len();
    pauli::fill::copy(s, at, tags);
}
