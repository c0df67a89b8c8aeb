// Recording an event (the Rust's `History::push` and `record_rotation`), and the clear.
ghost use Rattle.std.specs.Prelude.{◌≡◌, ℕ, ◌+◌, ◌*◌, ◌≤◌, ◌<◌, ◌^◌, length, List, Ok};
ghost use Rattle.model.specs.Events as model;
ghost use Rattle.model.specs.Events.{Event, State, record1, clear};
ghost use Rattle.history.specs.Words.{count_place, Holds, Sane, Becomes};
ghost use Rattle.history.specs.Sizes.{Fits, Held, HeldTo};
ghost use Rattle.history.specs.Recordings.{Noted, Labelled, SignedBody, Stored, EventsHeld, Fresh, Recorded};

use super::chains::{bucket, link};
use super::events::{Body, body_word};
use super::forms::push_lists;
use super::layout::Layout;
use pauli::corrupt::Corrupt;
use pauli::rows::signature;

// The axis, the signature, the tag's word and the live bit of event `id`. Live bits above it are cleared: no sweep at the opening is needed.
fn note(h: &mut [u64], layout: &Layout, id: usize, axis: &[u64], sig: u64, word: u64)
    requires { (count_place layout.now.cap layout.now.l ≤ length h.old) × (layout.now.l ≤ 362) × (id < layout.now.cap) × (length axis.now ≡ 2 * layout.now.l) }
    ensures { Noted h.old layout.now.l layout.now.cap id axis.now sig word h.new }
{
    let alive = layout.alive() + id / 64;
    let bit = 1u64 << (id % 64);
    pauli::fill::copy(h, layout.axis(id), axis);
    h[layout.signature(id)] = sig;
    h[layout.tag(id)] = word;
    h[alive] = h[alive] % bit + bit;
}

// The label of the rotation `id`, which becomes the head of its bucket.
fn put_label(h: &mut [u64], layout: &Layout, id: usize, high: u64, low: u64)
    requires { (2 + 4 * layout.now.cap ≤ length h.old) × (id < layout.now.cap) }
    ensures { Labelled h.old layout.now.cap id high low h.new }
{
    let at = layout.label(id);
    h[at] = high;
    h[at + 1] = low;
    link(h, layout.cap, bucket(low, layout.cap), id);
}

// All words of the event `id` but those of its lists.
fn put_event(h: &mut [u64], layout: &Layout, id: usize, axis: &[u64], sig: u64, body: Body)
    requires { (count_place layout.now.cap layout.now.l ≤ length h.old) × (layout.now.l ≤ 362) × (id < layout.now.cap) × (length axis.now ≡ 2 * layout.now.l) × SignedBody body }
    ensures stored { (es : List Event) (e : Event) → EventsHeld layout.now.cap layout.now.l es h.old → length es ≡ id → Fresh layout.now.l axis.now sig body e → Stored layout.now.cap layout.now.l es e h.old h.new }
    ensures long { length h.new ≡ length h.old }
{
    match body {
        Body::Blocker => note(h, layout, id, axis, sig, 0),
        Body::Rotation {
            tag,
            sign,
            high,
            low,
        } => {
            note(h, layout, id, axis, sig, body_word(tag, sign));
            put_label(h, layout, id, high, low)
        }
    }
}

// Records an event with the axis, and gives its number. There has to be room for it.
pub fn record(h: &mut [u64], layout: &Layout, axis: &[u64], body: Body) -> Result<usize, Corrupt>
    requires { Fits layout.now h.old × (length axis.now ≡ 2 * layout.now.l) × SignedBody body }
    ensures long { length h.new ≡ length h.old }
    ensures done { (m : State) (e : Event) → Held layout.now m h.old → Sane m → length m.events < layout.now.cap → Recorded layout.now.n axis.now body e → (result ≡ Ok (length m.events)) × HeldTo layout.now (record1 e m) h.old h.new }
{
    let id = h[0] as usize;
    if layout.cap <= id {
        return Err(Corrupt);
    }
    let sig = signature(axis, layout.l);
    put_event(h, layout, id, axis, sig, body);
    push_lists(h, layout, id, axis, sig)?;
    h[0] = (id + 1) as u64;
    Ok(id)
}

// No rotation recorded so far can be found: a walk stops at the first number below the one that is kept here.
pub fn clear(h: &mut [u64])
    requires { 2 ≤ length h.old }
    ensures { (f : model.Form) (n cap l : ℕ) (m : State) → Holds f n cap l m h.old → Becomes f n cap l (clear m) h.old h.new }
{
    h[1] = h[0];
}
