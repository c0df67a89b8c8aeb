// What is done to the lists of the form that was opened: `lists` at its place in the history's words (specs/Words.antt).
ghost use Rattle.std.specs.Prelude.{◌≡◌, true, false, ◌+◌, ◌*◌, ◌≤◌, ◌<◌, ◌^◌, length, Ok, IsOk};
ghost use Rattle.model.specs.Events.{Event, State, record1, kill};
ghost use Rattle.model.specs.Search.{walk, phase2};
ghost use Rattle.pauli.specs.Rows.{of_row};
ghost use Rattle.lists.specs.Scans.{scan_of};
ghost use Rattle.history.specs.Sizes.{Fits, HoldsLists, ListsBecome, Newcomer, Leaving, Scanned, scalar_lists_of, sliced_lists_of};

use super::layout::Layout;
use lists::budget::{Budget, Scan};
use pauli::corrupt::Corrupt;
use pauli::rows::signature;
use support::families::{ScalarLists, SlicedLists, kill, push, scan};

#[derive(Clone, Copy, Debug, PartialEq, Eq, Hash)]
pub enum Form {
    Scalar,
    Sliced,
}

// Where the scalar lists stand.
fn scalar_lists(layout: &Layout) -> ScalarLists
    requires { layout.now.l ≤ 362 }
    ensures { result ≡ scalar_lists_of layout.now.cap layout.now.l }
{
    let at = layout.counts();
    ScalarLists {
        at,
        base: at + 2 * 64,
        cap: layout.cap,
        sigs: layout.signatures(),
        axes: layout.axes(),
        l: layout.l,
        alive: layout.alive(),
    }
}

// Where the sliced lists stand.
fn sliced_lists(layout: &Layout) -> SlicedLists
    requires { (layout.now.l ≤ 362) × (layout.now.n ≤ 32) }
    ensures { result ≡ sliced_lists_of layout.now.n layout.now.cap layout.now.l }
{
    let at = layout.counts();
    SlicedLists {
        at,
        base: at + 2 * layout.n,
        cap: layout.cap,
        n: layout.n,
        axes: layout.axes(),
        alive: layout.alive(),
    }
}

// The event `id` goes to the end of each list of its axis.
pub fn push_lists(
    h: &mut [u64],
    layout: &Layout,
    id: usize,
    axis: &[u64],
    sig: u64,
) -> Result<(), Corrupt>
    requires { Fits layout.now h.old × (length axis.now ≡ 2 * layout.now.l) }
    ensures long { length h.new ≡ length h.old }
    ensures done { (m : State) (e : Event) → HoldsLists layout.now m h.old → length m.events ≡ id → id < layout.now.cap → Newcomer layout.now.n layout.now.l axis.now sig e → IsOk result × ListsBecome layout.now (record1 e m) h.old h.new }
{
    match layout.form {
        Form::Scalar => {
            let lists = scalar_lists(layout);
            push(&lists, h, sig, id as u64, axis)
        }
        Form::Sliced => {
            let set = axis[0] | axis[1];
            if set >> layout.n != 0 {
                return Err(Corrupt);
            }
            let lists = sliced_lists(layout);
            push(&lists, h, set, id as u64, axis)
        }
    }
}

// The entry of event `id` is dead in each list of its signature.
pub fn kill_lists(
    h: &mut [u64],
    layout: &Layout,
    id: usize,
    sig: u64,
    events: usize,
) -> Result<(), Corrupt>
    requires { Fits layout.now h.old × (events ≤ layout.now.cap) }
    ensures long { length h.new ≡ length h.old }
    ensures done { (m : State) → HoldsLists layout.now m h.old → length m.events ≡ events → Leaving layout.now.n layout.now.cap layout.now.l m id sig h.old → IsOk result × ListsBecome layout.now (kill id m) h.old h.new }
{
    match layout.form {
        Form::Scalar => {
            let lists = scalar_lists(layout);
            kill(&lists, h, sig, id as u64, events)
        }
        Form::Sliced => {
            if sig >> layout.n != 0 {
                return Err(Corrupt);
            }
            let lists = sliced_lists(layout);
            kill(&lists, h, sig, id as u64, events)
        }
    }
}

// The second phase of a look: the events after `after` in the lists of the axis.
pub fn scan_lists(
    h: &[u64],
    layout: &Layout,
    events: usize,
    axis: &[u64],
    after: usize,
    budget: Budget,
) -> Result<Scan, Corrupt>
    requires { Fits layout.now h.now × (length axis.now ≡ 2 * layout.now.l) × (events ≤ layout.now.cap) }
    ensures { (m : State) → HoldsLists layout.now m h.now → Scanned layout.now.cap layout.now.l m events h.now → (of_row 0 axis.now).x < 2 ^ layout.now.n → (of_row 0 axis.now).z < 2 ^ layout.now.n → result ≡ Ok (scan_of (walk (phase2 m after (of_row 0 axis.now).x (of_row 0 axis.now).z) budget.0)) }
{
    match layout.form {
        Form::Scalar => {
            let lists = scalar_lists(layout);
            scan(
                &lists,
                h,
                events,
                axis,
                signature(axis, layout.l),
                after,
                budget,
            )
        }
        Form::Sliced => {
            let set = axis[0] | axis[1];
            if set >> layout.n != 0 {
                return Err(Corrupt);
            }
            let lists = sliced_lists(layout);
            scan(&lists, h, events, axis, set, after, budget)
        }
    }
}
