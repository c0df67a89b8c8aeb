// All lists of a form (the Rust's `SupportLists`): what is done to each list of an axis's signature, set bits rising, once for both forms. List b
// has its counts at at + 2 b, and its room from base + b * size on: size is `cap` in the scalar form, cap + (2 n + 1) ((cap + 63) / 64) in the
// sliced one. Its `Lists` says what is done to one list; proofs/FormRuns.antt what that makes of all of them.
ghost use Rattle.std.specs.Prelude.{◌≡◌, Result, List, ℕ, ◌+◌, ◌*◌, ◌^◌, ◌≤◌, ◌<◌, length, slice_index};
ghost use Rattle.sliced.specs.Blocks.{sliced_room};
ghost use Rattle.model.specs.Pauli.{has};
ghost use Rattle.model.specs.Events.{words};
ghost use Rattle.pauli.specs.declared.corrupt.Corrupt.{Corrupt};
ghost use Rattle.lists.specs.declared.budget.Budget.{Budget};
ghost use Rattle.lists.specs.declared.budget.Scan.{Scan};
ghost use Rattle.support.specs.Families.{ScalarRooms, ScalarPushes, ScalarKills, ScalarScans, SlicedRooms, SlicedPushes, SlicedKills, SlicedScans, TwoWords};
ghost use Rattle.support.specs.Runs.{Each, Scans};

use lists::budget::{Budget, Scan};
use lists::live::LiveSet;
use lists::scalar::EventWords;
use pauli::bits::bits;
use pauli::corrupt::Corrupt;
use sliced::sliced::ListRoom;

// ---- one list of many

// The lists of one form, in words that each call lends.
pub trait Lists {
    // list b is one of them
    ghost has_list: { Self → ℕ → Type 0 };

    // the words have room for the lists, and the axis is one that they take
    ghost can_push: { Self → List ℕ → List ℕ → Type 0 };

    // the words have room for the lists, behind what is kept of so many events
    ghost can_kill: { Self → List ℕ → ℕ → Type 0 };

    // the words have room for the lists, what is kept of so many events stands in them, and the axis is one that they take
    ghost can_scan: { Self → List ℕ → ℕ → List ℕ → Type 0 };

    // a call for list b: which event or which axis, the words before and after, and the answer
    ghost pushes: { Self → ℕ → ℕ → List ℕ → List ℕ → List ℕ → Result (Unit {0}) Corrupt → Type 0 };

    ghost kills: { Self → ℕ → ℕ → ℕ → List ℕ → List ℕ → Result (Unit {0}) Corrupt → Type 0 };

    ghost scans: { Self → ℕ → ℕ → List ℕ → ℕ → ℕ → Budget → List ℕ → Result Scan Corrupt → Type 0 };

    // Appends the event `id` with the axis to list b.
    fn push(&self, h: &mut [u64], b: usize, id: u64, axis: &[u64]) -> Result<(), Corrupt>
        requires { can_push self.now h.old axis.now × has_list self.now b }
        ensures long { length h.new ≡ length h.old }
        ensures done { pushes self.now b id axis.now h.old h.new result };

    // The entry of event `id` is dead in list b, and its event no longer in the set of live events.
    fn kill(&self, h: &mut [u64], b: usize, id: u64, events: usize) -> Result<(), Corrupt>
        requires { can_kill self.now h.old events × has_list self.now b }
        ensures long { length h.new ≡ length h.old }
        ensures done { kills self.now b id events h.old h.new result };

    // The entries of list b after the event `after`; sig is the signature of the axis. (A look's own parameters, handed on: a struct of them would be
    // made and taken apart on each list, no plainer.)
    fn scan(
        &self,
        h: &[u64],
        b: usize,
        events: usize,
        axis: &[u64],
        sig: u64,
        after: usize,
        budget: Budget,
    ) -> Result<Scan, Corrupt>
        requires { can_scan self.now h.now events axis.now × has_list self.now b × (b < 64) }
        ensures { scans self.now b events axis.now sig after budget h.now result };
}

// ---- each list of a signature

// Appends the event `id` with the axis to each list of sig.
pub fn push<L: Lists>(
    lists: &L,
    h: &mut [u64],
    sig: u64,
    id: u64,
    axis: &[u64],
) -> Result<(), Corrupt>
    requires room { (g : List ℕ) → length g ≡ length h.old → L.can_push lists.now g axis.now }
    requires there { (b : ℕ) → b < 64 → has sig b ≡ 1 → L.has_list lists.now b }
    ensures long { length h.new ≡ length h.old }
    ensures done { Each (λ b s t r. L.pushes lists.now b id axis.now s t r) sig h.old h.new result }
{
    for b in bits(sig) {
        lists.push(h, b, id, axis)?;
    }
    Ok(())
}

// The entry of event `id` is dead in each list of sig.
pub fn kill<L: Lists>(
    lists: &L,
    h: &mut [u64],
    sig: u64,
    id: u64,
    events: usize,
) -> Result<(), Corrupt>
    requires room { (g : List ℕ) → length g ≡ length h.old → L.can_kill lists.now g events }
    requires there { (b : ℕ) → b < 64 → has sig b ≡ 1 → L.has_list lists.now b }
    ensures long { length h.new ≡ length h.old }
    ensures done { Each (λ b s t r. L.kills lists.now b id events s t r) sig h.old h.new result }
{
    for b in bits(sig) {
        lists.kill(h, b, id, events)?;
    }
    Ok(())
}

// The entries after the event `after` in each list of sig, the signature of the axis.
pub fn scan<L: Lists>(
    lists: &L,
    h: &[u64],
    events: usize,
    axis: &[u64],
    sig: u64,
    after: usize,
    budget: Budget,
) -> Result<Scan, Corrupt>
    requires room { L.can_scan lists.now h.now events axis.now }
    requires there { (b : ℕ) → b < 64 → has sig b ≡ 1 → L.has_list lists.now b }
    ensures { Scans (λ b left r. L.scans lists.now b events axis.now sig after left h.now r) sig budget result }
{
    let mut left = budget;
    for b in bits(sig) {
        match lists.scan(h, b, events, axis, sig, after, left)? {
            Scan::Clear(now) => left = now,
            stopped => return Ok(stopped),
        }
    }
    Ok(Scan::Clear(left))
}

// ---- scalar

// 64 scalar lists, those of a signature's bits: where their counts and their rooms begin, the events that a room takes, where the signatures
// and the axes of l words in a plane of the events begin, and the set of the live ones.
#[derive(Clone, Copy, Debug, PartialEq, Eq)]
pub struct ScalarLists {
    pub at: usize,
    pub base: usize,
    pub cap: usize,
    pub sigs: usize,
    pub axes: usize,
    pub l: usize,
    pub alive: usize,
}

impl ScalarLists {
    // Where the room of list b begins.
    fn room(&self, b: usize) -> usize
        requires { (b < 64) × (self.now.base + 64 * self.now.cap < 2 ^ 64) }
        ensures { result ≡ self.now.base + b * self.now.cap }
    {
        self.base + b * self.cap
    }
}

impl Lists for ScalarLists {
    ghost has_list = { λ s b. b < 64 };

    ghost can_push = { λ s h axis. ScalarRooms h s.at s.base s.cap };

    ghost can_kill = { λ s h events. ScalarRooms h s.at s.base s.cap × (s.alive + words events ≤ s.at) };

    ghost can_scan = { λ s h events axis. ScalarRooms h s.at s.base s.cap × (s.sigs + events ≤ length h) × (s.axes + events * (2 * s.l) ≤ length h) × (length axis ≡ 2 * s.l) };

    ghost pushes = { λ s b id axis h g r. ScalarPushes s.at s.base s.cap b id h g r };

    ghost kills = { λ s b id events h g r. ScalarKills s.at s.base s.cap s.alive events b h g r };

    ghost scans = { λ s b events axis sig after left h r. ScalarScans s.at s.base s.cap s.sigs s.axes s.l events b axis sig after left h r };

    fn push(&self, h: &mut [u64], b: usize, id: u64, axis: &[u64]) -> Result<(), Corrupt> {
        lists::scalar::push(h, self.at + 2 * b, self.room(b), self.cap, id)
    }

    fn kill(&self, h: &mut [u64], b: usize, id: u64, events: usize) -> Result<(), Corrupt> {
        lists::scalar::note_dead(
            h,
            self.at + 2 * b,
            self.room(b),
            self.cap,
            LiveSet {
                at: self.alive,
                events,
            },
        )
    }

    fn scan(
        &self,
        h: &[u64],
        b: usize,
        events: usize,
        axis: &[u64],
        sig: u64,
        after: usize,
        budget: Budget,
    ) -> Result<Scan, Corrupt> {
        let len = h[self.at + 2 * b] as usize;
        if self.cap < len {
            return Err(Corrupt);
        }
        let base = self.room(b);
        let words = EventWords {
            sigs: self.sigs,
            axes: self.axes,
            l: self.l,
            count: events,
        };
        lists::scalar::scan(h, base, len, words, axis, sig, b, after, budget)
    }
}

// ---- sliced

// n sliced lists, those of the qubits; an axis is two words.
#[derive(Clone, Copy, Debug, PartialEq, Eq)]
pub struct SlicedLists {
    pub at: usize,
    pub base: usize,
    pub cap: usize,
    pub n: usize,
    pub axes: usize,
    pub alive: usize,
}

impl SlicedLists {
    // The room of list b.
    #[tactic(auto, using(crate::proofs::FamilyLaws::room_below), unfolding(model::specs::Events::words))]
    fn room(&self, b: usize) -> ListRoom
        requires { (self.now.n ≤ 32) × (b < self.now.n) × (self.now.base + self.now.n * sliced_room self.now.cap self.now.n < 2 ^ 64) }
        ensures { result ≡ record { base = self.now.base + b * sliced_room self.now.cap self.now.n; cap = self.now.cap; n = self.now.n } }
    {
        let blocks = (self.cap + 63) / 64;
        let size = self.cap + blocks * (2 * self.n) + blocks;
        ListRoom {
            base: self.base + b * size,
            cap: self.cap,
            n: self.n,
        }
    }
}

impl Lists for SlicedLists {
    ghost has_list = { λ s b. b < s.n };

    ghost can_push = { λ s h axis. SlicedRooms h s.at s.base s.cap s.n × TwoWords s.n axis };

    ghost can_kill = { λ s h events. SlicedRooms h s.at s.base s.cap s.n × (s.alive + words events ≤ s.at) × (s.axes + 2 * events ≤ s.at) };

    ghost can_scan = { λ s h events axis. SlicedRooms h s.at s.base s.cap s.n × TwoWords s.n axis };

    ghost pushes = { λ s b id axis h g r. SlicedPushes s.at s.base s.cap s.n b id (slice_index axis 0) (slice_index axis 1) h g r };

    ghost kills = { λ s b id events h g r. SlicedKills s.at s.base s.cap s.n s.alive s.axes events b id h g r };

    ghost scans = { λ s b events axis sig after left h r. SlicedScans s.at s.base s.cap s.n b (slice_index axis 0) (slice_index axis 1) after left h r };

    fn push(&self, h: &mut [u64], b: usize, id: u64, axis: &[u64]) -> Result<(), Corrupt> {
        sliced::sliced::push(h, self.at + 2 * b, self.room(b), id, axis[0], axis[1])
    }

    fn kill(&self, h: &mut [u64], b: usize, id: u64, events: usize) -> Result<(), Corrupt> {
        sliced::sliced::kill(
            h,
            self.at + 2 * b,
            self.room(b),
            id,
            LiveSet {
                at: self.alive,
                events,
            },
            self.axes,
        )
    }

    fn scan(
        &self,
        h: &[u64],
        b: usize,
        events: usize,
        axis: &[u64],
        sig: u64,
        after: usize,
        budget: Budget,
    ) -> Result<Scan, Corrupt> {
        let len = h[self.at + 2 * b] as usize;
        if self.cap < len {
            return Err(Corrupt);
        }
        Ok(sliced::sliced::scan(h, self.room(b), len, after, axis[0], axis[1], budget))
    }
}
