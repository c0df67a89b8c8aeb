// One line of a job: read, done on the store, answered. The answer's bytes go to the start of the lent `out`. The lent slices go on one by one, and in no struct:
// `run` promises on slices of any sizes, and a struct of four `&mut` would be taken apart at each call.
ghost use Rattle.std.specs.Prelude.{◌-◌, ◌≤◌, ◌<◌, ◌≡◌, length};
ghost use Rattle.model.specs.Calls.{call_look};
ghost use Rattle.frame.specs.Axes.{kind_of};
ghost use Rattle.store.specs.Promises.{told as promised};
ghost use Rattle.partner.specs.Calls.{call_in};
ghost use Rattle.text.specs.Line.{reading_of};
ghost use Rattle.session.specs.declared.stages.Stage.TheVariants as at;
ghost use Rattle.session.specs.Session.{settled, begun, answered_by, operated, obeyed, answered, room};
ghost use Rattle.session.specs.Desk.{Near, Within, records_of, kills_of, Counts, Tells, Does};

use super::header::take_line;
use super::stages::{MAX_EVENTS, Ran, Stage};
use frame::axes::Kind;
use history::forms::Form;
use partner::calls::{Call, apply, look, open};
use store::refusals::Refusal;
use text::answers::{write_answer, write_bad, write_not_opened, write_sight};
use text::lines::{Line, read_line};

// ---- the opening

// Tries the opening once the labels are read.
fn try_open(
    n: usize,
    form: Form,
    events: usize,
    steps: u64,
    labels: &[u64],
    store: &mut [u64],
    out: &mut [u8],
) -> Ran<Stage>
    requires { (n ≤ 32) × (events ≤ 48) × (length labels.now ≡ 128) × (length store.old ≡ room) × (128 ≤ length out.old) }
    ensures { Tells settled (at.Labels n form events steps n) labels.now store.old out.old result labels.now store.new out.new }
{
    let end = 4 * n;
    match open(store, n, events, steps, form, &labels[..end]) {
        Err(e) => Ran::Stop(write_not_opened(e.code(), out)),
        Ok(_) => Ran::On(Stage::Running { events: 0, live: 0 }, 0),
    }
}

// Goes on to a stage, through the opening if all labels are read.
fn settle(stage: Stage, labels: &[u64], store: &mut [u64], out: &mut [u8]) -> Ran<Stage>
    requires { Near stage × (length labels.now ≡ 128) × (length store.old ≡ room) × (128 ≤ length out.old) }
    ensures { Tells settled stage labels.now store.old out.old result labels.now store.new out.new }
{
    match stage {
        Stage::Labels {
            n,
            form,
            events,
            steps,
            q,
        } => {
            if q < n {
                return Ran::On(stage, 0);
            }
            try_open(n, form, events, steps, labels, store, out)
        }
        _ => Ran::On(stage, 0),
    }
}

// ---- operations

// The events that a call records, if it is not refused.
fn records(c: Call) -> u64
    ensures { result ≡ records_of c }
{
    match c {
        Call::Record { .. } | Call::Measure(_) => 1,
        Call::Reset(_) => 2,
        Call::Ccx(..) | Call::Ccz(..) => 7,
        _ => 0,
    }
}

// The events that a call kills, if it is not refused.
fn kills(c: Call) -> u64
    ensures { result ≡ kills_of c }
{
    u64::from(matches!(c, Call::Kill(_)))
}

// The counts of the end line after a call and its answer: "events recorded less events killed". On a store of this program there are at most 48 events;
// the test keeps the sums in 64 bits on any other.
fn count(c: Call, a: Result<Option<usize>, Refusal>, events: u64, live: u64) -> Stage
    ensures { Counts c (promised a) events live result }
{
    let same = Stage::Running { events, live };
    if events > MAX_EVENTS as u64 || live > events {
        return same;
    }
    match a {
        Ok(Some(_)) => {
            let k = records(c);
            Stage::Running {
                events: events + k,
                live: live + k,
            }
        }
        Ok(None) => Stage::Running {
            events,
            live: live.saturating_sub(kills(c)),
        },
        Err(_) => same,
    }
}

// A call that writes.
fn do_call(
    line: u64,
    events: u64,
    live: u64,
    c: Call,
    store: &mut [u64],
    out: &mut [u8],
) -> Ran<Stage>
    requires { (length store.old ≡ room) × (128 ≤ length out.old) }
    ensures { Does (answered_by line (call_in c)) events live store.old out.old result store.new out.new }
{
    let a = apply(store, c);
    let stage = count(c, a, events, live);
    let n = write_answer(line, a, out);
    Ran::On(stage, n)
}

// A look.
fn do_look(
    line: u64,
    events: u64,
    live: u64,
    kind: Kind,
    q: usize,
    store: &[u64],
    out: &mut [u8],
) -> Ran<Stage>
    requires { (length store.now ≡ room) × (128 ≤ length out.old) }
    ensures { Does (answered_by line (call_look (kind_of kind) q)) events live store.now out.old result store.now out.new }
{
    let s = look(store, kind, q);
    let n = write_sight(line, s, out);
    Ran::On(Stage::Running { events, live }, n)
}

// A line once the store is open.
fn operate(
    line: u64,
    events: u64,
    live: u64,
    l: Line,
    store: &mut [u64],
    out: &mut [u8],
) -> Ran<Stage>
    requires { (length store.old ≡ room) × (128 ≤ length out.old) }
    ensures { Does (operated line l) events live store.old out.old result store.new out.new }
{
    match l {
        Line::Call(c) => do_call(line, events, live, c, store, out),
        Line::Look { kind, q } => do_look(line, events, live, kind, q, store, out),
        _ => Ran::Stop(write_bad(line, out)),
    }
}

// ---- any line

// A line before the store is open.
fn begin(
    line: u64,
    stage: Stage,
    l: Line,
    labels: &mut [u64],
    store: &mut [u64],
    out: &mut [u8],
) -> Ran<Stage>
    requires { Within stage × (length labels.old ≡ 128) × (length store.old ≡ room) × (128 ≤ length out.old) }
    ensures { Tells (begun line l) stage labels.old store.old out.old result labels.new store.new out.new }
{
    match take_line(stage, l, labels) {
        Some(next) => settle(next, labels, store, out),
        None => Ran::Stop(write_bad(line, out)),
    }
}

fn obey(
    line: u64,
    stage: Stage,
    l: Line,
    labels: &mut [u64],
    store: &mut [u64],
    out: &mut [u8],
) -> Ran<Stage>
    requires { Within stage × (length labels.old ≡ 128) × (length store.old ≡ room) × (128 ≤ length out.old) }
    ensures { Tells (obeyed line l) stage labels.old store.old out.old result labels.new store.new out.new }
{
    match stage {
        Stage::Running { events, live } => operate(line, events, live, l, store, out),
        _ => begin(line, stage, l, labels, store, out),
    }
}

// The answer to a line, given without its newline.
pub fn answer(
    line: u64,
    stage: Stage,
    s: &[u8],
    labels: &mut [u64],
    store: &mut [u64],
    out: &mut [u8],
) -> Ran<Stage>
    requires { Within stage × (length labels.old ≡ 128) × (length store.old ≡ room) × (128 ≤ length out.old) }
    ensures { Tells (answered line (reading_of s.now)) stage labels.old store.old out.old result labels.new store.new out.new }
{
    match read_line(s) {
        Some(l) => obey(line, stage, l, labels, store, out),
        None => Ran::Stop(write_bad(line, out)),
    }
}
