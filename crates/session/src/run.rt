// The bytes of a job, in blocks of any size: `start`, then `run` on each block, then `last` at the end of the input, unless it said to stop.
ghost use Rattle.std.specs.Prelude.{◌+◌, ◌^◌, ◌≤◌, ◌<◌, ◌↔◌, IsTrue, length};
ghost use Rattle.session.specs.Desk.{Sized, Hears, Fits, Plays, Runs, Lasts, Begins, ServesAll};

use super::desk::answer;
use super::stages::{Ran, Stage, Talk};
use std::error::Error;
use std::fmt;
use text::answers::{write_bad, write_end};
use text::lines::LINE_BYTES;

// What `run` asks: a line's buffer, four words for each of 32 qubits, the words of the store, and room for what is said to a byte.
pub const LABEL_WORDS: usize = 128;

pub const STORE_WORDS: usize = 4401;

pub const SAID_BYTES: usize = 128;

// More lines are not counted, far from the last number of 64 bits.
pub const MAX_LINES: u64 = 1 << 62;

// `run` was lent slices of other sizes than it names, or a talk that is none of its own; `serve`, an output that is too short. Nothing was done.
#[derive(Clone, Copy, Debug, PartialEq, Eq, Hash)]
pub struct Unfit;

impl fmt::Display for Unfit {
    fn fmt<W: fmt::Write>(&self, f: &mut fmt::Formatter<W>) -> fmt::Result {
        f.write_str("slices of other sizes than a session asks for")
    }
}

impl Error for Unfit {}

// The start of a job.
pub fn start() -> Talk
    ensures { Begins result }
{
    Talk {
        line: 0,
        held: 0,
        stage: Stage::Qubits,
    }
}

// One byte.
fn hear(
    t: Talk,
    buf: &mut [u8],
    labels: &mut [u64],
    store: &mut [u64],
    out: &mut [u8],
    b: u8,
) -> Ran<Talk>
    requires { Sized t buf.old labels.old store.old × (128 ≤ length out.old) × (t.line < 2 ^ 63) }
    ensures { Hears t buf.old labels.old store.old out.old b result buf.new labels.new store.new out.new }
{
    let Talk { line, held, stage } = t;
    if b == b'\n' {
        return match answer(line + 1, stage, &buf[..held], labels, store, out) {
            Ran::On(stage, n) => Ran::On(
                Talk {
                    line: line + 1,
                    held: 0,
                    stage,
                },
                n,
            ),
            Ran::Stop(n) => Ran::Stop(n),
        };
    }
    if held >= LINE_BYTES {
        return Ran::Stop(write_bad(line + 1, out));
    }
    buf[held] = b;
    Ran::On(
        Talk {
            line,
            held: held + 1,
            stage,
        },
        0,
    )
}

// The sizes that `run` asks for.
fn fits(t: Talk, input: &[u8], buf: &[u8], labels: &[u64], store: &[u64], out: &[u8]) -> bool
    ensures { IsTrue result ↔ Fits t input.now buf.now labels.now store.now out.now }
{
    buf.len() == LINE_BYTES
        && labels.len() == LABEL_WORDS
        && store.len() == STORE_WORDS
        && input.len() <= out.len() / SAID_BYTES
        && t.held <= LINE_BYTES
        && t.line <= MAX_LINES
        && t.stage.is_in_range()
}

// The bytes of a block, on slices that fit.
fn play(
    from: Talk,
    input: &[u8],
    buf: &mut [u8],
    labels: &mut [u64],
    store: &mut [u64],
    out: &mut [u8],
) -> Ran<Talk>
    requires { Fits from input.now buf.old labels.old store.old out.old }
    ensures { Plays from input.now buf.old labels.old store.old out.old result buf.new labels.new store.new out.new }
{
    let mut t = from;
    let mut at = 0;
    for &b in input {
        match hear(t, buf, labels, store, &mut out[at..], b) {
            Ran::On(next, n) => {
                t = next;
                at += n;
            }
            Ran::Stop(n) => return Ran::Stop(at + n),
        }
    }
    Ran::On(t, at)
}

// The next bytes of a job. Lent are the line buffer (80 bytes), the labels (128 words), the store (4,401 words) and out (128 bytes for each byte of the
// input); the first three are the job's own until its end. The answers are the first bytes of out. The slices are no struct, since `Runs` promises on slices
// of any sizes.
pub fn run(
    t: Talk,
    input: &[u8],
    buf: &mut [u8],
    labels: &mut [u64],
    store: &mut [u64],
    out: &mut [u8],
) -> Result<Ran<Talk>, Unfit>
    ensures { Runs t input.now buf.old labels.old store.old out.old result buf.new labels.new store.new out.new }
{
    if !fits(t, input, buf, labels, store, out) {
        return Err(Unfit);
    }
    Ok(play(t, input, buf, labels, store, out))
}

// Writes what is said at the end of the input, into 128 bytes of out or as much as there is; past 2^62 lines nothing.
pub fn last(t: Talk, out: &mut [u8]) -> usize
    ensures { Lasts t out.old result out.new }
{
    let line = t.line;
    if line > MAX_LINES {
        return 0;
    }
    if t.held > 0 {
        return write_bad(line + 1, out);
    }
    match t.stage {
        Stage::Running { events, live } => write_end(line, events, live, out),
        _ => write_bad(line + 1, out),
    }
}

// A whole job at once: how many bytes were said to it. Lent is out: 128 bytes for each byte of the input, and 128 more.
pub fn serve(input: &[u8], out: &mut [u8]) -> Result<usize, Unfit>
    ensures { ServesAll input.now out.old result out.new }
{
    if input.len() >= out.len() / SAID_BYTES {
        return Err(Unfit);
    }
    let mut buf = [0u8; LINE_BYTES];
    let mut labels = [0u64; LABEL_WORDS];
    let mut store = [0u64; STORE_WORDS];
    match run(start(), input, &mut buf, &mut labels, &mut store, out)? {
        Ran::On(t, n) => Ok(n + last(t, &mut out[n..])),
        Ran::Stop(n) => Ok(n),
    }
}
