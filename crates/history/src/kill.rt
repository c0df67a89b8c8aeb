// A rotation that merged away (the Rust's `History::kill`).
ghost use Rattle.std.specs.Prelude.{◌≡◌, true, false, List, ◌+◌, ◌*◌, ◌≤◌, ◌<◌, ◌^◌, length, IsOk, IsErrOf};
ghost use Rattle.model.specs.Events.{Event, State, kill};
ghost use Rattle.model.specs.Calls.{not_killable};
ghost use Rattle.history.specs.Words.{count_place, Sane};
ghost use Rattle.history.specs.Sizes.{Fits, Held, HeldTo};
ghost use Rattle.history.specs.Recordings.{EventsHeld};
ghost use Rattle.history.specs.declared.kill.KillError.TheVariants as kill_error;
ghost use Rattle.history.specs.Kills.{Gone, Dying};

use super::chains::{bucket, unlink};
use super::events::read;
use super::forms::kill_lists;
use super::layout::Layout;
use pauli::corrupt::Corrupt;
use std::error::Error;
use std::fmt;

// Why a rotation was not killed: it is no event, a blocker, or dead; or the words are corrupt.
#[derive(Clone, Copy, Debug, PartialEq, Eq, Hash)]
pub enum KillError {
    NoSuchEvent,
    Corrupt,
}

impl fmt::Display for KillError {
    fn fmt<W: fmt::Write>(&self, f: &mut fmt::Formatter<W>) -> fmt::Result {
        match self {
            KillError::NoSuchEvent => f.write_str("no such live rotation"),
            KillError::Corrupt => write!(f, "{Corrupt}"),
        }
    }
}

impl Error for KillError {}

impl From<Corrupt> for KillError {
    ghost from_gives = { λ _ e. e ≡ kill_error.Corrupt };

    fn from(_: Corrupt) -> KillError {
        Self::Corrupt
    }
}

// The event `id` out of the set of live events and out of its chain, with no signature: all that is not its lists.
fn drop_event(h: &mut [u64], layout: &Layout, id: usize) -> Result<(), Corrupt>
    requires { (count_place layout.now.cap layout.now.l ≤ length h.old) × (layout.now.l ≤ 362) × (id < layout.now.cap) }
    ensures long { length h.new ≡ length h.old }
    ensures done { (es : List Event) → EventsHeld layout.now.cap layout.now.l es h.old → length es ≤ layout.now.cap → Dying es id → IsOk result × Gone layout.now.cap layout.now.l es id h.old h.new }
{
    let alive = layout.alive() + id / 64;
    let low = h[layout.label(id) + 1];
    h[alive] &= !(1u64 << (id % 64));
    h[layout.signature(id)] = 0;
    unlink(h, layout.cap, bucket(low, layout.cap), id)
}

// The live rotation `id` dies.
fn kill_live(h: &mut [u64], layout: &Layout, id: usize) -> Result<(), Corrupt>
    requires { Fits layout.now h.old × (id < layout.now.cap) }
    ensures long { length h.new ≡ length h.old }
    ensures done { (m : State) → Held layout.now m h.old → Sane m → Dying m.events id → IsOk result × HeldTo layout.now (kill id m) h.old h.new }
{
    let events = h[0] as usize;
    if layout.cap < events {
        return Err(Corrupt);
    }
    let sig = h[layout.signature(id)];
    drop_event(h, layout, id)?;
    kill_lists(h, layout, id, sig, events)
}

// Kills the rotation `id`.
pub fn kill(h: &mut [u64], layout: &Layout, id: usize) -> Result<(), KillError>
    requires { Fits layout.now h.old }
    ensures long { length h.new ≡ length h.old }
    ensures refused { (m : State) → Held layout.now m h.old → Sane m → not_killable m.events id ≡ true → IsErrOf result KillError.NoSuchEvent × (h.new ≡ h.old) }
    ensures done { (m : State) → Held layout.now m h.old → Sane m → not_killable m.events id ≡ false → IsOk result × HeldTo layout.now (kill id m) h.old h.new }
    ensures kept { IsErrOf result KillError.NoSuchEvent → h.new ≡ h.old }
{
    if layout.cap <= id {
        return Err(KillError::NoSuchEvent);
    }
    match read(h, layout, id)? {
        Some(rotation) if rotation.live => kill_live(h, layout, id)?,
        _ => return Err(KillError::NoSuchEvent),
    }
    Ok(())
}
