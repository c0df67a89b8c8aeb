// The words of one event, but for its lists: what a rotation or a blocker keeps, and what a read says of it.
ghost use Rattle.std.specs.Prelude.{◌≡◌, true, false, ℕ, ◌+◌, ◌*◌, ◌≤◌, ◌<◌, length, Some, None, Ok};
ghost use Rattle.model.specs.Events.{Form, State};
ghost use Rattle.model.specs.Demands.{IsSign};
ghost use Rattle.model.specs.Calls.{reading, not_readable};
ghost use Rattle.history.specs.Words.{count_place, code, Holds, Sane};
ghost use Rattle.history.specs.Readings.{rotation_of};

use super::layout::Layout;
use pauli::corrupt::Corrupt;
use pauli::sets::contains;

// What a new event keeps beside its axis.
#[derive(Clone, Copy, Debug, PartialEq, Eq)]
pub enum Body {
    Rotation {
        tag: u32,
        sign: i8,
        high: u64,
        low: u64,
    },
    Blocker,
}

// Tag, sign and that it is a rotation, in one word.
pub fn body_word(tag: u32, sign: i8) -> u64
    requires { IsSign sign }
    ensures { result ≡ 4 * tag + code sign }
{
    let t = 4 * (tag as u64);
    if sign == 1 { t + 1 } else { t + 3 }
}

// What a rotation keeps, and whether it is live.
#[derive(Clone, Copy, Debug, PartialEq, Eq)]
pub struct Rotation {
    pub tag: u32,
    pub sign: i8,
    pub live: bool,
}

// The rotation `id`, dead ones too; or none, where there is no such rotation.
pub fn read(h: &[u64], layout: &Layout, id: usize) -> Result<Option<Rotation>, Corrupt>
    requires { (count_place layout.now.cap layout.now.l ≤ length h.now) × (layout.now.l ≤ 362) }
    ensures nothing { (f : Form) (n : ℕ) (m : State) → Holds f n layout.now.cap layout.now.l m h.now → Sane m → not_readable m.events id ≡ true → result ≡ Ok None }
    ensures says { (f : Form) (n : ℕ) (m : State) → Holds f n layout.now.cap layout.now.l m h.now → Sane m → not_readable m.events id ≡ false → result ≡ Ok (Some (rotation_of (reading m.events id))) }
{
    let events = h[0] as usize;
    if layout.cap < events {
        return Err(Corrupt);
    }
    if events <= id {
        return Ok(None);
    }
    let word = h[layout.tag(id)];
    if word == 0 {
        return Ok(None);
    }
    let Ok(tag) = u32::try_from(word / 4) else {
        return Err(Corrupt);
    };
    // How a stored word says the sign (docs/STORE.md). `looks::partner` has the same five lines: a function for both, with its clauses, is longer.
    let sign = match word % 4 {
        1 => 1,
        3 => -1,
        _ => return Err(Corrupt),
    };
    let live = contains(&h[layout.alive()..], id);
    Ok(Some(Rotation { tag, sign, live }))
}
