// A look (the Rust's `History::partner`): the candidate, and then whether every later live event commutes with the axis. It writes nothing.
ghost use Rattle.std.specs.Prelude.{◌≡◌, ◌+◌, ◌-◌, ◌*◌, ◌≤◌, ◌<◌, ◌^◌, length, Ok};
ghost use Rattle.model.specs.Events.{State};
ghost use Rattle.model.specs.Search.{look_for};
ghost use Rattle.model.specs.Demands.{IsSign};
ghost use Rattle.pauli.specs.Rows.{of_row};
ghost use Rattle.history.specs.Words.{Sane};
ghost use Rattle.history.specs.Sizes.{Fits, Held};
ghost use Rattle.history.specs.Phases.{label_of, look_of, Partner};

use super::findings::{Candidate, Found, Look};
use super::forms::scan_lists;
use super::layout::Layout;
use super::search::candidate;
use lists::budget::{Budget, Scan};
use pauli::corrupt::Corrupt;
use pauli::rows::product;

// The partner `id` of an axis with this sign. The relative sign is the product of both signs.
fn partner(h: &[u64], layout: &Layout, id: usize, sign: i8) -> Result<Found, Corrupt>
    requires { (2 + 5 * layout.now.cap ≤ length h.now) × IsSign sign }
    ensures { Partner h.now layout.now.cap id sign result }
{
    if layout.cap <= id {
        return Err(Corrupt);
    }
    // How a stored word says the sign (docs/STORE.md).
    let kept = match h[layout.tag(id)] % 4 {
        1 => 1,
        3 => -1,
        _ => return Err(Corrupt),
    };
    let sign = product(kept, sign);
    Ok(Found::Partner { id, sign })
}

// A look for an axis with its sign and its label, which is two words here as in the store.
pub fn look(
    h: &[u64],
    layout: &Layout,
    axis: &[u64],
    sign: i8,
    high: u64,
    low: u64,
    allowance: u32,
) -> Result<Look, Corrupt>
    requires { Fits layout.now h.now × (length axis.now ≡ 2 * layout.now.l) × IsSign sign }
    ensures { (m : State) → Held layout.now m h.now → Sane m → m.given.allowance ≡ allowance → (of_row 0 axis.now).x < 2 ^ layout.now.n → (of_row 0 axis.now).z < 2 ^ layout.now.n → result ≡ Ok (look_of (look_for m sign (label_of high low) (of_row 0 axis.now).x (of_row 0 axis.now).z)) }
{
    let (found, left) = match candidate(h, layout, high, low, axis, Budget(allowance))? {
        Candidate::Nothing(left) => (Found::Nothing, left),
        Candidate::Out(left) => (Found::OutOfSteps, left),
        Candidate::Match(id, left) => {
            let events = h[0] as usize;
            if layout.cap < events {
                return Err(Corrupt);
            }
            match scan_lists(h, layout, events, axis, id, left)? {
                Scan::Clear(rest) => (partner(h, layout, id, sign)?, rest),
                Scan::Blocked(rest) => (Found::Blocked, rest),
                Scan::Out(rest) => (Found::OutOfSteps, rest),
            }
        }
    };
    let steps = allowance.saturating_sub(left.0);
    Ok(Look { found, steps })
}
