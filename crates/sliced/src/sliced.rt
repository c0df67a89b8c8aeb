// A sliced list (the Rust's `SlicedList`): event numbers, rising, with the axes of each block of 64 entries in masks (specs/Blocks.antt). The
// dead stay until more than half is dead. Its length and its dead count stand at `at`, the rest in its `ListRoom`.
ghost use Rattle.std.specs.Prelude.{◌≡◌, true, Ok, IsTrue, IsOk, IsErr, slice_index, List, map, ℕ, ◌+◌, ◌-◌, ◌*◌, ◌≤◌, ◌<◌, ◌^◌, length};
ghost use Rattle.std.specs.Int.Count.{ones};
ghost use Rattle.model.specs.Pauli.{has};
ghost use Rattle.model.specs.Events.{State, words};
ghost use Rattle.model.specs.Search.{walk, list_at, sliced_list};
ghost use Rattle.lists.specs.Lists.{Room, is_live, still, Rises};
ghost use Rattle.sliced.specs.Blocks.{mask_place, live_place, Entry, entry, entry_of, fresh, sliced_room, Reps, Sliced, SlicedTo, Source, RisingIds, killed_at};
ghost use Rattle.lists.specs.Scalars.{pushed};
ghost use Rattle.lists.specs.Scans.{scan_of};
ghost use Rattle.sliced.specs.Steps.{Marked, Opened, Appended, Killed, Stepped, Settled, Rebuilt, Spread, visited, and_then};

use super::masks::anticommuting;
use lists::budget::{Budget, Scan};
use lists::live::LiveSet;
use lists::places::{first_past, place_of};
use pauli::bits::bits;
use pauli::corrupt::Corrupt;
use pauli::fill::clear;

// ---- the words

// The room of a list: `cap` numbers from `base` on, 2 n masks for each block, a live word for each block.
#[derive(Clone, Copy, Debug, PartialEq, Eq)]
pub struct ListRoom {
    pub base: usize,
    pub cap: usize,
    pub n: usize,
}

impl ListRoom {
    // Where the masks of block b begin.
    #[tactic(auto, unfolding(model::specs::Events::words))]
    fn masks(self, b: usize) -> usize
        requires { (self.n ≤ 32) × (b ≤ words self.cap) × (self.base + sliced_room self.cap self.n < 2 ^ 64) }
        ensures { result ≡ mask_place self.base self.cap self.n b }
    {
        self.base + self.cap + b * (2 * self.n)
    }

    // Where the live word of block b stands.
    #[tactic(auto, unfolding(model::specs::Events::words))]
    fn live(self, b: usize) -> usize
        requires { (self.n ≤ 32) × (b ≤ words self.cap) × (self.base + sliced_room self.cap self.n < 2 ^ 64) }
        ensures { result ≡ live_place self.base self.cap self.n b }
    {
        self.base + self.cap + (self.cap + 63) / 64 * (2 * self.n) + b
    }
}

// ---- recording

// Sets the digits of bit in the word at + (2 p + odd) for each p in set.
fn mark(h: &mut [u64], at: usize, odd: usize, set: u64, bit: u64)
    requires { (p : ℕ) → has set p ≡ 1 → at + (2 * p + odd) < length h.old }
    ensures { Marked h.old at odd set bit h.new }
{
    for p in bits(set) {
        h[at + (2 * p + odd)] |= bit;
    }
}

// Has block len / 64 ready for an entry: where it is a fresh one, its masks and its live word are zeroed.
#[tactic(auto, unfolding(model::specs::Events::words))]
fn prepare(h: &mut [u64], room: ListRoom, len: usize)
    requires { Spread h.old room.base room.cap room.n × (len < room.cap) }
    ensures { Opened h.old room.base room.cap room.n len h.new }
{
    if len % 64 == 0 {
        clear(h, room.masks(len / 64), 2 * room.n);
        h[room.live(len / 64)] = 0;
    }
}

// Puts an entry with the axis (x, z) behind the first len. (An axis of the sliced form is two words of the lent slice: here and below they stay two
// numbers, since a struct of them would be made only to be taken apart, no plainer.)
#[tactic(auto, unfolding(model::specs::Events::words))]
fn append(h: &mut [u64], room: ListRoom, len: usize, id: u64, x: u64, z: u64)
    requires { Spread h.old room.base room.cap room.n × (len < room.cap) × (x < 2 ^ room.n) × (z < 2 ^ room.n) }
    ensures { Appended h.old room.base room.cap room.n len (fresh id x z) h.new }
{
    let masks = room.masks(len / 64);
    let live = room.live(len / 64);
    let bit = 1u64 << (len % 64);
    prepare(h, room, len);
    mark(h, masks, 0, x, bit);
    mark(h, masks, 1, z, bit);
    h[live] |= bit;
    h[room.base + len] = id;
}

// Appends the event `id` with the axis (x, z), unless the list is full.
pub fn push(
    h: &mut [u64],
    at: usize,
    room: ListRoom,
    id: u64,
    x: u64,
    z: u64,
) -> Result<(), Corrupt>
    requires { Room h.old at room.base (sliced_room room.cap room.n) × (room.n ≤ 32) × (x < 2 ^ room.n) × (z < 2 ^ room.n) }
    ensures long { length h.new ≡ length h.old }
    ensures full { room.cap ≤ slice_index h.old at → IsErr result }
    ensures done { (m : List Entry) (d : ℕ) → Sliced h.old at room.base room.cap room.n m d → length m < room.cap → IsOk result × SlicedTo h.old at room.base room.cap room.n (pushed (fresh id x z) m) d h.new }
{
    let len = h[at] as usize;
    if room.cap <= len {
        return Err(Corrupt);
    }
    append(h, room, len, id, x, z);
    h[at] = (len + 1) as u64;
    Ok(())
}

// ---- a death

// Keeps the entry of event `id` at place k, where the event is live; the answer is where the next entry that is kept goes.
#[tactic(auto, unfolding(model::specs::Events::words))]
fn keep(
    h: &mut [u64],
    room: ListRoom,
    k: usize,
    live: LiveSet,
    axes: usize,
    id: u64,
) -> Result<usize, Corrupt>
    requires { Spread h.old room.base room.cap room.n × (k < room.cap) × (live.at + words live.events ≤ room.base) × (axes + 2 * live.events ≤ room.base) }
    ensures { Stepped h.old room.base room.cap room.n k live.at axes live.events id result h.new }
{
    if !live.has(h, id)? {
        return Ok(k);
    }
    let e = id as usize;
    let x = h[axes + 2 * e];
    let z = h[axes + (2 * e + 1)];
    if (x | z) >> room.n != 0 {
        return Err(Corrupt);
    }
    append(h, room, k, id, x, z);
    Ok(k + 1)
}

// Whether the events of the 64 numbers from `at` on are live.
#[tactic(auto, unfolding(model::specs::Events::words))]
fn all_live(h: &[u64], at: usize, live: LiveSet) -> bool
    requires { (at + 64 ≤ length h.now) × (live.at + words live.events ≤ at) × (live.events ≤ at) }
    ensures { IsTrue result → (j : ℕ) → j < 64 → is_live h.now live.at (slice_index h.now (at + j)) ≡ true }
{
    for j in 0..64 {
        if !live.has(h, h[at + j]).unwrap_or(false) {
            return false;
        }
    }
    true
}

// How many blocks at the front are full of live entries. A rebuild leaves these as they are: what merges away is mostly recent.
#[tactic(auto, unfolding(model::specs::Events::words))]
fn settled(h: &[u64], room: ListRoom, len: usize, live: LiveSet) -> usize
    requires { Spread h.now room.base room.cap room.n × (len ≤ room.cap) × (live.at + words live.events ≤ room.base) × (live.events ≤ room.base) }
    ensures { Settled h.now room.base room.cap room.n len live.at result }
{
    for b in 0..len / 64 {
        if h[room.live(b)] != !0 || !all_live(h, room.base + 64 * b, live) {
            return b;
        }
    }
    len / 64
}

// Drops the entries whose events are dead; the answer is how many are left.
fn rebuild(
    h: &mut [u64],
    room: ListRoom,
    len: usize,
    live: LiveSet,
    axes: usize,
) -> Result<usize, Corrupt>
    requires { Spread h.old room.base room.cap room.n × (len ≤ room.cap) × (live.at + words live.events ≤ room.base) × (axes + 2 * live.events ≤ room.base) }
    ensures { Rebuilt h.old room.base room.cap room.n len live.at axes live.events result h.new }
{
    let front = 64 * settled(h, room, len, live);
    let mut k = front;
    for i in front..len {
        let id = h[room.base + i];
        k = keep(h, room, k, live, axes, id)?;
    }
    Ok(k)
}

// Marks the entry at pos dead.
#[tactic(auto, unfolding(model::specs::Events::words))]
fn mark_dead(h: &mut [u64], room: ListRoom, pos: usize)
    requires { Spread h.old room.base room.cap room.n × (pos < room.cap) }
    ensures { Killed h.old room.base room.cap room.n pos h.new }
{
    let live = room.live(pos / 64);
    h[live] &= !(1u64 << (pos % 64));
}

// The entry of event `id`, no longer in the set of live events, is dead: the list is rebuilt from its live entries, whose axes stand
// at `axes`, once more than half is dead.
pub fn kill(
    h: &mut [u64],
    at: usize,
    room: ListRoom,
    id: u64,
    live: LiveSet,
    axes: usize,
) -> Result<(), Corrupt>
    requires { Room h.old at room.base (sliced_room room.cap room.n) × (room.n ≤ 32) × (live.at + words live.events ≤ at) × (axes + 2 * live.events ≤ at) }
    ensures long { length h.new ≡ length h.old }
    ensures over { room.cap < slice_index h.old at → IsErr result }
    ensures all { slice_index h.old at ≤ slice_index h.old (at + 1) → IsErr result }
    ensures done { (m : List Entry) (d pos : ℕ) → Sliced h.old at room.base room.cap room.n m d → d < length m → RisingIds m → Source h.old room.n axes live.events m → pos < length m → (entry m pos).id ≡ id → IsOk result × SlicedTo h.old at room.base room.cap room.n (killed_at h.old live.at d pos m) (still 2 (d + 1) (length m)) h.new }
{
    let len = h[at] as usize;
    let dead = h[at + 1] as usize;
    if room.cap < len || len <= dead {
        return Err(Corrupt);
    }
    let Some(pos) = place_of(&h[room.base..room.base + len], id) else {
        return Err(Corrupt);
    };
    if 2 * (dead + 1) <= len {
        mark_dead(h, room, pos);
        h[at + 1] = (dead + 1) as u64;
        return Ok(());
    }
    let k = rebuild(h, room, len, live, axes)?;
    h[at] = k as u64;
    h[at + 1] = 0;
    Ok(())
}

// ---- a scan

// What a block with these live entries costs. Most blocks are full, and plain x86-64 has no instruction that counts: it takes a dozen.
fn cost(live: u64) -> u32
    ensures { result ≡ ones live }
{
    if live == !0 { 64 } else { live.count_ones() }
}

// One block: its live entries are paid for, and then those in first are tested against word, the ones that anticommute.
#[tactic(auto, unfolding(crate::specs::Steps::paid))]
fn visit(live: u64, word: u64, first: u64, left: Budget) -> Scan
    ensures { result ≡ visited live word first left }
{
    let Some(now) = left.spend(cost(live)) else {
        return Scan::Out(left);
    };
    if word & live & first != 0 {
        Scan::Blocked(now)
    } else {
        Scan::Clear(now)
    }
}

// Two blocks in a row, the later one whole.
fn visit_two(live: u64, next: u64, words: [u64; 2], first: u64, left: Budget) -> Scan
    ensures { result ≡ and_then (visited live (slice_index words 0) first left) (visited next (slice_index words 1) (2 ^ 64 - 1)) }
{
    match visit(live, words[0], first, left) {
        Scan::Clear(now) => visit(next, words[1], !0, now),
        found => found,
    }
}

// The blocks of a list of len entries from the one where the first entry after the event `after` would stand: each costs its live entries,
// earlier ones too, and is then tested. They go two by two, so that the axis is walked half as often (no `for`: an odd one is left for the end).
#[tactic(auto, unfolding(model::specs::Events::words))]
pub fn scan(
    h: &[u64],
    room: ListRoom,
    len: usize,
    after: usize,
    ax: u64,
    az: u64,
    budget: Budget,
) -> Scan
    requires { Spread h.now room.base room.cap room.n × (len ≤ room.cap) × (ax < 2 ^ room.n) × (az < 2 ^ room.n) }
    ensures { (s : State) (b : ℕ) → length (list_at s b) ≡ len → Reps h.now room.base room.cap room.n (map (entry_of s.events) (list_at s b)) → Rises (list_at s b) → result ≡ scan_of (walk (sliced_list s after ax az b) budget.0) }
{
    let start = first_past(&h[room.base..room.base + len], after as u64);
    let used = (len + 63) / 64;
    let mut left = budget;
    let mut b = start / 64;
    let mut first = !0u64 << (start % 64);
    while b + 1 < used {
        let at = room.masks(b);
        let words = anticommuting::<2>(&h[at..at + 4 * room.n], room.n, ax, az);
        match visit_two(h[room.live(b)], h[room.live(b + 1)], words, first, left) {
            Scan::Clear(now) => left = now,
            found => return found,
        }
        first = !0;
        b += 2;
    }
    if b < used {
        let at = room.masks(b);
        let words = anticommuting::<1>(&h[at..at + 2 * room.n], room.n, ax, az);
        return visit(h[room.live(b)], words[0], first, left);
    }
    Scan::Clear(left)
}
