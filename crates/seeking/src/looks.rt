// A look: the axis of a kind, read off the frames, and the search of `history` for it. It writes nothing. The axis x or z is a row of the frames,
// lent in place; y is a product of two rows, in a row of its own.
ghost use Rattle.std.specs.Prelude.{◌≡◌, List, ℕ, ◌+◌, ◌*◌, ◌%◌, ◌≤◌, ◌<◌, length, ◌*ℤ◌};
ghost use Rattle.model.specs.Pauli.{Pauli, sign};
ghost use Rattle.model.specs.Frame.{axis, kind_y, paulis};
ghost use Rattle.model.specs.Events.{State};
ghost use Rattle.model.specs.Search.{look, found};
ghost use Rattle.model.specs.Demands.{IsSign, HasSign};
ghost use Rattle.model.specs.Calls.{looked, call_look};
ghost use Rattle.frame.specs.Places.{IsRow};
ghost use Rattle.frame.specs.Axes.{kind_of, axis_of};
ghost use Rattle.store.specs.Stores.{Held};
ghost use Rattle.store.specs.Checks.{Fit};
ghost use Rattle.store.specs.Promises.{told_look, Answers};
ghost use Rattle.seeking.specs.Sights.{SignSeen, sight_of};

use frame::axes::{Basis, Kind, Tag, axis_row, label, row_sign, y_product};
use history::findings::{Found, Look};
use history::layout::Layout;
use pauli::rows::opposite;
use store::header::{Sizes, check, sizes_of};
use store::refusals::Refusal;

// The partner `id` as what a look sees: the relative sign is the product of the sign it keeps and the row's own. Only here is the row's sign
// worked out, which takes a walk over its words. That `kept` is a sign is known of words that hold a state, so it is compared and not multiplied.
fn relative(id: usize, kept: i8, steps: u32, row: &[u64]) -> Result<Look, Refusal>
    requires { length row.now % 2 ≡ 1 }
    ensures { (l : ℕ) (p : Pauli) → length row.now ≡ 2 * l + 1 → IsRow l row.now 0 p → HasSign p → IsSign kept → told_look result ≡ looked (found id (kept *ℤ sign p) steps) }
{
    match row_sign(row) {
        None => Err(Refusal::Corrupt),
        Some(own) => {
            let sign = if kept == 1 { own } else { opposite(own) };
            let found = Found::Partner { id, sign };
            Ok(Look { found, steps })
        }
    }
}

// What the history saw of the row's axis taken with the sign +1, as what a look sees.
#[tactic(auto, unfolding(crate::specs::Sights::sight_of, crate::specs::Sights::found_of, store::specs::Promises::told_look, store::specs::Promises::seen_of))]
fn sight(seen: Look, row: &[u64]) -> Result<Look, Refusal>
    requires { length row.now % 2 ≡ 1 }
    ensures { (l : ℕ) (p : Pauli) → length row.now ≡ 2 * l + 1 → IsRow l row.now 0 p → HasSign p → SignSeen seen → told_look result ≡ sight_of (sign p) seen }
{
    match seen.found {
        Found::Partner { id, sign } => relative(id, sign, seen.steps, row),
        _ => Ok(seen),
    }
}

// The look for the axis of a kind, which is the row given, phase first.
fn sought(s: &[u64], z: &Sizes, kind: Kind, q: usize, row: &[u64]) -> Result<Look, Refusal>
    requires { Fit z.now s.now × (q < z.now.n) × (length row.now ≡ 2 * z.now.l + 1) }
    ensures { (m : State) → Held m s.now → IsRow z.now.l row.now 0 (axis paulis (kind_of kind) q m.frame) → told_look result ≡ looked (look (kind_of kind) q m) }
{
    let Tag { high, low } = label(&s[14..z.at], z.n, z.l, kind, q);
    let Sizes {
        form,
        n,
        l,
        cap,
        ..
    } = *z;
    let layout = Layout { form, n, l, cap };
    let seen = history::looks::look(
        &s[z.at..z.end],
        &layout,
        &row[1..],
        1,
        high,
        low,
        z.allowance,
    )?;
    sight(seen, row)
}

// The look for the axis y, whose row is written to `out`.
fn sought_y(s: &[u64], z: &Sizes, q: usize, out: &mut [u64]) -> Result<Look, Refusal>
    requires { Fit z.now s.now × (q < z.now.n) × (length out.old ≡ 2 * z.now.l + 1) }
    ensures { (m : State) → Held m s.now → told_look result ≡ looked (look kind_y q m) }
{
    y_product(&s[14..z.at], z.n, z.l, q, out)?;
    sought(s, z, Kind::Y, q, out)
}

// The same with a row of WORDS words of its own: that many are cleared for it.
fn with_row<const WORDS: usize>(s: &[u64], z: &Sizes, q: usize) -> Result<Look, Refusal>
    requires { Fit z.now s.now × (q < z.now.n) × (2 * z.now.l + 1 ≤ WORDS) × (WORDS ≤ 725) }
    ensures { (m : State) → Held m s.now → told_look result ≡ looked (look kind_y q m) }
{
    let mut row = [0u64; WORDS];
    let out = &mut row[..];
    sought_y(s, z, q, &mut out[..2 * z.l + 1])
}

// The look for the axis x or z, whose row is read in place.
fn in_place(s: &[u64], z: &Sizes, basis: Basis, kind: Kind, q: usize) -> Result<Look, Refusal>
    requires { Fit z.now s.now × (q < z.now.n) }
    ensures { (m : State) → Held m s.now → ((row : List ℕ) → IsRow z.now.l row 0 (axis_of basis m.frame q) → IsRow z.now.l row 0 (axis paulis (kind_of kind) q m.frame)) → told_look result ≡ looked (look (kind_of kind) q m) }
{
    sought(s, z, kind, q, axis_row(&s[14..z.at], z.n, z.l, basis, q))
}

// The look, by its kind. Up to 192 qubits the axis y has a short row.
fn sought_kind(s: &[u64], z: &Sizes, kind: Kind, q: usize) -> Result<Look, Refusal>
    requires { Fit z.now s.now × (q < z.now.n) }
    ensures { (m : State) → Held m s.now → told_look result ≡ looked (look (kind_of kind) q m) }
{
    match kind {
        Kind::X => in_place(s, z, Basis::X, kind, q),
        Kind::Y => {
            if z.l <= 3 {
                with_row::<7>(s, z, q)
            } else {
                with_row::<725>(s, z, q)
            }
        }
        Kind::Z | Kind::P => in_place(s, z, Basis::Z, kind, q),
    }
}

// Looks for a partner of the rotation of a kind about qubit q.
pub fn look(s: &[u64], kind: Kind, q: usize) -> Result<Look, Refusal>
    ensures { Answers (call_look (kind_of kind) q) s.now (told_look result) }
{
    check(s)?;
    let z = sizes_of(s);
    if z.n <= q {
        return Err(Refusal::NoSuchQubit);
    }
    sought_kind(s, &z, kind, q)
}
