// Where a number stands in a rising list.
ghost use Rattle.std.specs.Prelude.{◌≡◌, ◌<◌, ◌≤◌, length, slice_index};
ghost use Rattle.lists.specs.Lists.{Rises, Splits, Sought};

// `half` where the number is not past `after`, else 0.
fn step(number: u64, after: u64, half: usize) -> usize
    ensures most { result ≤ half }
    ensures low { number ≤ after → result ≡ half }
    ensures high { after < number → result ≡ 0 }
{
    if number <= after { half } else { 0 }
}

// The place of the first number past `after`, or the length, by halving. No `for`: each turn halves what is left. Std's `partition_point` is
// no plainer: its clause needs the law of a rising list at each closure, and this halving is one of docs/SPEED.md.
fn first_after(ids: &[u64], after: u64) -> usize
    ensures within { result ≤ length ids.now }
    ensures splits { Rises ids.now → Splits ids.now after result }
{
    let mut lo = 0;
    let mut len = ids.len();
    while len > 1 {
        let half = len / 2;
        lo += step(ids[lo + (half - 1)], after, half);
        len -= half;
    }
    if len == 1 {
        lo += step(ids[lo], after, 1);
    }
    lo
}

// A place that is not past the first number of at least `id`. Rotations usually merge away soon after they are recorded, so it gallops
// back from the end, by steps that double (the Rust's `SlicedList::kill`); no `for`, since neither the step nor the end is known before.
fn gallop(ids: &[u64], id: u64) -> usize
    requires { 0 < length ids.now }
    ensures within { result < length ids.now }
    ensures low { 0 < result → slice_index ids.now result ≤ id }
{
    let mut lo = ids.len() - 1;
    let mut span = 1;
    while lo > 0 {
        if ids[lo] <= id {
            return lo;
        }
        if lo < span {
            return 0;
        }
        lo -= span;
        span *= 2;
    }
    0
}

// The place that `first_after` gives, by halving from where the gallop ends: a scan starts after a partner, which is usually a recent event. (The Rust's scans
// halve over the whole list.)
pub fn first_past(ids: &[u64], after: u64) -> usize
    ensures within { result ≤ length ids.now }
    ensures splits { Rises ids.now → Splits ids.now after result }
{
    if ids.is_empty() {
        return 0;
    }
    let lo = gallop(ids, after);
    lo + first_after(&ids[lo..], after)
}

// The place of `id`, where it stands there: the one before the first number past it.
pub fn place_of(ids: &[u64], id: u64) -> Option<usize>
    ensures { Sought ids.now id result }
{
    let p = first_past(ids, id).checked_sub(1)?;
    if ids[p] == id { Some(p) } else { None }
}
