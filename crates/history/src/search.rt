// The first phase of a look (the Rust's `History::candidate`): the live rotations with the present label since the last clear, newest first,
// 1 step each, until one has the same axis. A look writes nothing.
ghost use Rattle.std.specs.Prelude.{◌≡◌, ℕ, ◌+◌, ◌-◌, ◌*◌, ◌≤◌, ◌<◌, length, IfOk, IsOkAnd, Ok};
ghost use Rattle.model.specs.Events.{Form, State};
ghost use Rattle.model.specs.Search.{walk, phase1};
ghost use Rattle.pauli.specs.Rows.{of_row};
ghost use Rattle.history.specs.Words.{alive_place, Holds};
ghost use Rattle.history.specs.Phases.{candidate_of, label_of, Onward, Met, Turn, Falls};

use super::chains::bucket;
use super::findings::Candidate;
use super::layout::Layout;
use lists::budget::Budget;
use pauli::corrupt::Corrupt;
use pauli::rows::same;

// What one event of a chain leads to: an older one, or the end. `ControlFlow<Candidate, (usize, Budget)>` would say no more.
#[derive(Clone, Copy, Debug, PartialEq, Eq)]
pub enum Visit {
    On(usize, Budget),
    Stop(Candidate),
}

// The next older event of the chain after event cur - 1.
fn onward(h: &[u64], cap: usize, cur: usize, left: Budget) -> Result<Visit, Corrupt>
    requires { (1 ≤ cur) × (cur ≤ cap) × (2 + 2 * cap ≤ length h.now) }
    ensures { Onward h.now cap cur left result }
{
    let next = h[2 + cap + (cur - 1)] as usize;
    if next < cur {
        Ok(Visit::On(next, left))
    } else {
        Err(Corrupt)
    }
}

// Event cur - 1 of a chain: it is none, or before the last clear, or of another label, or of this one, which costs a step. (Nine parameters: they are
// `candidate`'s own, handed on; a struct would be built there and taken apart here.)
fn turn(
    h: &[u64],
    layout: &Layout,
    events: usize,
    cleared: usize,
    high: u64,
    low: u64,
    axis: &[u64],
    cur: usize,
    left: Budget,
) -> Result<Visit, Corrupt>
    requires { (alive_place layout.now.cap layout.now.l ≤ length h.now) × (events ≤ layout.now.cap) × (length axis.now ≡ 2 * layout.now.l) × (1 ≤ cur) }
    ensures falls { IfOk result (Falls cur) }
    ensures turn { (f : Form) (n : ℕ) (m : State) → Met f n m layout.now.cap layout.now.l events cleared low (cur - 1) h.now → IsOkAnd result (Turn m layout.now.cap high low (of_row 0 axis.now).x (of_row 0 axis.now).z cur left) }
{
    let id = cur - 1;
    if events <= id {
        return Err(Corrupt);
    }
    if id < cleared {
        return Ok(Visit::Stop(Candidate::Nothing(left)));
    }
    let at = layout.label(id);
    if h[at] != high || h[at + 1] != low {
        return onward(h, layout.cap, cur, left);
    }
    let Some(rest) = left.spend(1) else {
        return Ok(Visit::Stop(Candidate::Out(left)));
    };
    let from = layout.axis(id);
    if same(&h[from..from + 2 * layout.l], axis) {
        return Ok(Visit::Stop(Candidate::Match(id, rest)));
    }
    onward(h, layout.cap, cur, rest)
}

// The newest live rotation since the last clear with the label (high, low) and the axis.
pub fn candidate(
    h: &[u64],
    layout: &Layout,
    high: u64,
    low: u64,
    axis: &[u64],
    budget: Budget,
) -> Result<Candidate, Corrupt>
    requires { (1 ≤ layout.now.cap) × (alive_place layout.now.cap layout.now.l ≤ length h.now) × (length axis.now ≡ 2 * layout.now.l) }
    ensures { (f : Form) (n : ℕ) (m : State) → Holds f n layout.now.cap layout.now.l m h.now → result ≡ Ok (candidate_of (walk (phase1 m (label_of high low) (of_row 0 axis.now).x (of_row 0 axis.now).z) budget.0)) }
{
    let events = h[0] as usize;
    let cleared = h[1] as usize;
    if layout.cap < events {
        return Err(Corrupt);
    }
    let k = bucket(low, layout.cap);
    let mut cur = h[2 + k] as usize;
    let mut left = budget;
    // Each link says where the next event is: there is no range to go over.
    while cur != 0 {
        match turn(h, layout, events, cleared, high, low, axis, cur, left)? {
            Visit::On(next, rest) => {
                cur = next;
                left = rest;
            }
            Visit::Stop(found) => return Ok(found),
        }
    }
    Ok(Candidate::Nothing(left))
}
