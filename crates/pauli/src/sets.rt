// A set of numbers in the words of a part, 64 to a word (the Rust's `BitSet`).
ghost use Rattle.std.specs.Prelude.{◌≡◌, ◌<◌, ◌/◌, ◌==◌, length};
ghost use Rattle.pauli.specs.Sets.{member, Put};

pub fn contains(set: &[u64], i: usize) -> bool
    requires { i / 64 < length set.now }
    ensures { result ≡ (member set.now i == 1) }
{
    (set[i / 64] >> (i % 64)) & 1 == 1
}

pub fn insert(set: &mut [u64], i: usize)
    requires { i / 64 < length set.old }
    ensures { Put set.old i 1 set.new }
{
    set[i / 64] |= 1u64 << (i % 64);
}

pub fn remove(set: &mut [u64], i: usize)
    requires { i / 64 < length set.old }
    ensures { Put set.old i 0 set.new }
{
    set[i / 64] &= !(1u64 << (i % 64));
}
