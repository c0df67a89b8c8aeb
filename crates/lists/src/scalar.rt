// A scalar list (the Rust's `ScalarList`): event numbers, rising, of which the dead stay until more than a quarter is dead. Its length and
// its dead count stand at `at`, its numbers in `cap` words from `base` on.
ghost use Rattle.std.specs.Prelude.{◌≡◌, Ok, IsOk, IsErr, List, ℕ, ◌+◌, ◌*◌, ◌≤◌, ◌<◌, length, slice_index};
ghost use Rattle.model.specs.Pauli.{has};
ghost use Rattle.model.specs.Events.{State, words};
ghost use Rattle.model.specs.Search.{walk, scalar_list};
ghost use Rattle.pauli.specs.Rows.{of_row, signature};
ghost use Rattle.lists.specs.Lists.{Room, Known, still};
ghost use Rattle.lists.specs.Scalars.{Scalar, ScalarTo, pushed, noted, Retained, Dropped};
ghost use Rattle.lists.specs.Scans.{Scannable, scan_of, Meets};

use super::budget::{Budget, Scan};
use super::live::LiveSet;
use super::places::first_past;
use pauli::corrupt::Corrupt;
use pauli::rows::anticommutes;

// ---- recording

// Appends a number, unless the list is full. (`at`, `base` and `cap` stay three numbers: a struct would be made in support's two calls only to be taken apart
// here, no plainer.)
pub fn push(h: &mut [u64], at: usize, base: usize, cap: usize, id: u64) -> Result<(), Corrupt>
    requires { Room h.old at base cap }
    ensures long { length h.new ≡ length h.old }
    ensures full { cap ≤ slice_index h.old at → IsErr result }
    ensures done { (ids : List ℕ) (d : ℕ) → Scalar h.old at base cap ids d → length ids < cap → IsOk result × ScalarTo h.old at base cap (pushed id ids) d h.new }
{
    let len = h[at] as usize;
    if cap <= len {
        return Err(Corrupt);
    }
    h[base + len] = id;
    h[at] = (len + 1) as u64;
    Ok(())
}

// ---- a death

// Keeps the number `id` at place k, where its event is live; the answer is where the next number that is kept goes.
fn retain(h: &mut [u64], base: usize, k: usize, live: LiveSet, id: u64) -> Result<usize, Corrupt>
    requires { (base + k < length h.old) × (live.at + words live.events ≤ base) }
    ensures { Retained h.old base k live.at live.events id result h.new }
{
    if live.has(h, id)? {
        h[base + k] = id;
        return Ok(k + 1);
    }
    Ok(k)
}

// Its like in sliced (`keep`, `rebuild`, `kill`) writes an entry's masks too and leaves settled blocks in place: one function for both would be
// handed what to write and where to begin as closures over the lent words, no plainer.
// Drops the numbers whose events are dead; the answer is how many are left.
fn drop_dead(h: &mut [u64], base: usize, len: usize, live: LiveSet) -> Result<usize, Corrupt>
    requires { (base + len ≤ length h.old) × (live.at + words live.events ≤ base) }
    ensures { Dropped h.old base len live.at live.events result h.new }
{
    let mut k = 0;
    for i in 0..len {
        let id = h[base + i];
        k = retain(h, base, k, live, id)?;
    }
    Ok(k)
}

// One more number of the list is dead, and its event is no longer in the set of live events: the dead are dropped once they are
// more than a quarter.
pub fn note_dead(
    h: &mut [u64],
    at: usize,
    base: usize,
    cap: usize,
    live: LiveSet,
) -> Result<(), Corrupt>
    requires { Room h.old at base cap × (live.at + words live.events ≤ base) }
    ensures long { length h.new ≡ length h.old }
    ensures over { cap < slice_index h.old at → IsErr result }
    ensures all { slice_index h.old at ≤ slice_index h.old (at + 1) → IsErr result }
    ensures done { (ids : List ℕ) (d : ℕ) → Scalar h.old at base cap ids d → d < length ids → Known live.events ids → IsOk result × ScalarTo h.old at base cap (noted h.old live.at d ids) (still 4 (d + 1) (length ids)) h.new }
{
    let len = h[at] as usize;
    let dead = h[at + 1] as usize;
    if cap < len || len <= dead {
        return Err(Corrupt);
    }
    if 4 * (dead + 1) <= len {
        h[at + 1] = (dead + 1) as u64;
        return Ok(());
    }
    let k = drop_dead(h, base, len, live)?;
    h[at] = k as u64;
    h[at + 1] = 0;
    Ok(())
}

// ---- a scan

// Where the words of `count` events stand: a signature each from `sigs` on, and l words of X and l of Z each from `axes` on.
#[derive(Clone, Copy, Debug, PartialEq, Eq)]
pub struct EventWords {
    pub sigs: usize,
    pub axes: usize,
    pub l: usize,
    pub count: usize,
}

// Six parameters: the words, the axis, the two halves of a test worked out once for a scan, and the event. No two travel together elsewhere.
// Whether the event `id`, in list `bit`, is to be tested there and anticommutes with the axis. `wanted` are the bits of the axis's signature
// up to `bit`: the event is tested where that one, `this`, is the first that it shares. A dead event shares none.
fn meets(
    h: &[u64],
    events: EventWords,
    axis: &[u64],
    wanted: u64,
    this: u64,
    id: usize,
) -> Result<bool, Corrupt>
    requires { (events.sigs + events.count ≤ length h.now) × (events.axes + events.count * (2 * events.l) ≤ length h.now) × (length axis.now ≡ 2 * events.l) }
    ensures { Meets h.now events.sigs events.axes events.l events.count axis.now wanted this id result }
{
    if events.count <= id {
        return Err(Corrupt);
    }
    if h[events.sigs + id] & wanted != this {
        return Ok(false);
    }
    let words = 2 * events.l;
    let from = events.axes + id * words;
    Ok(anticommutes(&h[from..from + words], axis))
}

// List `bit`'s entries after the event `after`, 1 step each: the allowance bounds where the walk ends. (Nine parameters: the room, the events, the
// axis with its signature, and the look's two numbers. A struct of them would be made for this call alone, no plainer.)
pub fn scan(
    h: &[u64],
    base: usize,
    len: usize,
    events: EventWords,
    axis: &[u64],
    sig: u64,
    bit: usize,
    after: usize,
    budget: Budget,
) -> Result<Scan, Corrupt>
    requires { (base + len ≤ length h.now) × (events.sigs + events.count ≤ length h.now) × (events.axes + events.count * (2 * events.l) ≤ length h.now) × (length axis.now ≡ 2 * events.l) × (bit < 64) }
    ensures { (s : State) → Scannable s bit events.l events.count h.now base len events.sigs events.axes → sig ≡ signature events.l (of_row 0 axis.now).x (of_row 0 axis.now).z → has sig bit ≡ 1 → result ≡ Ok (scan_of (walk (scalar_list s after (of_row 0 axis.now).x (of_row 0 axis.now).z bit) budget.0)) }
{
    let start = first_past(&h[base..base + len], after as u64);
    let left = budget.0 as usize;
    let rest = len - start;
    let end = if left < rest { start + left } else { len };
    let wanted = sig & (!0u64 >> (63 - bit));
    let this = 1u64 << bit;
    for i in start..end {
        let id = h[base + i] as usize;
        if meets(h, events, axis, wanted, this, id)? {
            return Ok(Scan::Blocked(Budget((left - (i + 1 - start)) as u32)));
        }
    }
    if left < rest {
        return Ok(Scan::Out(Budget(0)));
    }
    Ok(Scan::Clear(Budget((left - rest) as u32)))
}
