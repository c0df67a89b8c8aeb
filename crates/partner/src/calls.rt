// The calls. Qubits, events and sizes are any numbers of 64 bits: those that do not fit are refused. Each refusal has 01's number (`code` of
// `store::refusals`), which the calls below name.
ghost use Rattle.std.specs.Prelude.{◌≡◌, length};
ghost use Rattle.model.specs.Calls.{call_gate, call_turn, call_record, call_measure, call_reset, call_ccx, call_ccz, call_kill, call_clear, call_read, call_look, opening};
ghost use Rattle.frame.specs.Axes.{kind_of};
ghost use Rattle.gating.specs.Gates.{gate_of};
ghost use Rattle.history.specs.Sizes.{form_of};
ghost use Rattle.store.specs.Promises.{told, told_open, told_done, told_first, told_read, told_look, Answers, Meets, Opens};
ghost use Rattle.partner.specs.Calls.{call_in};

use frame::axes::Kind;
use gating::gates::Gate;
use history::events::Rotation;
use history::findings::Look;
use history::forms::Form;
use marking::calls::enroll;
use marking::events::Mark;
use store::refusals::{OpenError, Refusal};

// ---- opening

// The sizes stay parameters, as README has the call; `typed` has them as one plan.
// Opens a store: n qubits, room for `events` events, `steps` steps for each look, the form of the lists, and four words of labels for each qubit (X high,
// X low, Z high, Z low). Refuses with 1 (n, steps or form), 2 (events) or 3 (labels, or a slice below the need of docs/STORE.md).
pub fn open(
    s: &mut [u64],
    n: usize,
    events: usize,
    steps: u64,
    form: Form,
    labels: &[u64],
) -> Result<(), OpenError>
    ensures { Opens (opening n events steps (form_of form) labels.now (length s.old)) s.old (told_open result) s.new }
{
    store::opening::open(s, n, events, steps, form, labels)
}

// ---- frames

// Applies a gate to the frames. Refuses with 4 (a qubit is n or more) or 5 (a qubit named twice).
pub fn gate(s: &mut [u64], g: Gate) -> Result<(), Refusal>
    ensures { Meets (call_gate (gate_of g)) s.old (told_done result) s.new }
{
    gating::calls::gate(s, g)
}

// Applies the Clifford gates of a turn by k eighths of a full turn, of a kind. Refuses with 8 (k is not 0, 2, 4 or 6) or 4.
pub fn turn(s: &mut [u64], kind: Kind, k: u64, q: usize) -> Result<(), Refusal>
    ensures { Meets (call_turn (kind_of kind) k q) s.old (told_done result) s.new }
{
    gating::calls::turn(s, kind, k, q)
}

// ---- events

// Records a rotation of a kind about qubit q. Refuses with 4, or with 6 when there is no room.
pub fn record(s: &mut [u64], kind: Kind, q: usize, tag: u32) -> Result<usize, Refusal>
    ensures { Meets (call_record (kind_of kind) q tag) s.old (told_first result) s.new }
{
    enroll(s, Mark::Rotation { kind, q, tag })
}

// Records the blocker of a measurement. Refuses with 4 or 6.
pub fn measure(s: &mut [u64], q: usize) -> Result<usize, Refusal>
    ensures { Meets (call_measure q) s.old (told_first result) s.new }
{
    enroll(s, Mark::Measure(q))
}

// Records the two blockers of a reset, or none. Refuses with 4 or 6.
pub fn reset(s: &mut [u64], q: usize) -> Result<usize, Refusal>
    ensures { Meets (call_reset q) s.old (told_first result) s.new }
{
    enroll(s, Mark::Reset(q))
}

// Records the seven blockers of a ccx with controls a and b and target t, or none. Refuses with 4, 5 or 6.
pub fn ccx(s: &mut [u64], a: usize, b: usize, t: usize) -> Result<usize, Refusal>
    ensures { Meets (call_ccx a b t) s.old (told_first result) s.new }
{
    enroll(s, Mark::Ccx(a, b, t))
}

// The same of a ccz.
pub fn ccz(s: &mut [u64], a: usize, b: usize, t: usize) -> Result<usize, Refusal>
    ensures { Meets (call_ccz a b t) s.old (told_first result) s.new }
{
    enroll(s, Mark::Ccz(a, b, t))
}

// Kills a rotation that merged away. Refuses with 7 (no such event, a blocker, or dead).
pub fn kill(s: &mut [u64], id: usize) -> Result<(), Refusal>
    ensures { Meets (call_kill id) s.old (told_done result) s.new }
{
    seeking::events::kill(s, id)
}

// From now on no rotation recorded so far can be found.
pub fn clear(s: &mut [u64]) -> Result<(), Refusal>
    ensures { Meets call_clear s.old (told_done result) s.new }
{
    seeking::events::clear(s)
}

// ---- questions

// The tag and the sign of a rotation, and whether it is live. Refuses with 7 (no such event or a blocker).
pub fn read(s: &[u64], id: usize) -> Result<Rotation, Refusal>
    ensures { Answers (call_read id) s.now (told_read result) }
{
    seeking::events::read(s, id)
}

// Looks for the partner of a rotation of a kind about qubit q. Refuses with 4.
pub fn look(s: &[u64], kind: Kind, q: usize) -> Result<Look, Refusal>
    ensures { Answers (call_look (kind_of kind) q) s.now (told_look result) }
{
    seeking::looks::look(s, kind, q)
}

// ---- any of the calls that write, but an opening

#[derive(Clone, Copy, Debug, PartialEq, Eq, Hash)]
pub enum Call {
    Gate(Gate),
    Turn { kind: Kind, k: u64, q: usize },
    Record { kind: Kind, q: usize, tag: u32 },
    Measure(usize),
    Reset(usize),
    Ccx(usize, usize, usize),
    Ccz(usize, usize, usize),
    Kill(usize),
    Clear,
}

// The result of a call that records no event, as one of a call that may.
fn without_event(done: Result<(), Refusal>) -> Result<Option<usize>, Refusal>
    ensures { told result ≡ told_done done }
{
    done?;
    Ok(None)
}

// The same of a call that records.
fn with_event(first: Result<usize, Refusal>) -> Result<Option<usize>, Refusal>
    ensures { told result ≡ told_first first }
{
    let id = first?;
    Ok(Some(id))
}

// Does the call: the number of the first event that it recorded, if it is one that records.
pub fn apply(s: &mut [u64], c: Call) -> Result<Option<usize>, Refusal>
    ensures { Meets (call_in c) s.old (told result) s.new }
{
    match c {
        Call::Gate(g) => without_event(gate(s, g)),
        Call::Turn { kind, k, q } => without_event(turn(s, kind, k, q)),
        Call::Record { kind, q, tag } => with_event(record(s, kind, q, tag)),
        Call::Measure(q) => with_event(measure(s, q)),
        Call::Reset(q) => with_event(reset(s, q)),
        Call::Ccx(a, b, t) => with_event(ccx(s, a, b, t)),
        Call::Ccz(a, b, t) => with_event(ccz(s, a, b, t)),
        Call::Kill(id) => without_event(kill(s, id)),
        // In place, so that a clear that says that it recorded is one value changed (must-fail/clear_records).
        Call::Clear => {
            clear(s)?;
            Ok(None)
        }
    }
}
