// Many jobs through the session of the line program, to compare its answers with those of oracle/: the original's search, under a line program that shares
// no code with ours. The file `stdin` holds the jobs, with the byte 30 behind each; `stdout` has, for job K, a line `job=K` and its answers. Both are
// made by oracle/vectors.sh. After a session stops, the rest of its job is skipped.
#![tactic(auto)]

ghost use Rattle.std.specs.Prelude.{◌+◌, ◌≤◌, ◌<◌, ◌^◌, length};
ghost use Rattle.replay.specs.declared.Job.TheVariants as jobs;
ghost use Rattle.replay.specs.Jobs.{Open, Leads};

use session::run::{LABEL_WORDS, STORE_WORDS, last, run, start};
use session::stages::{Ran, Talk};
use std::io;
use std::io::Read;
use text::lines::LINE_BYTES;

// The byte behind each job.
const MARK: u8 = 30;

// A job: none of its bytes is read; it goes on; or its session stopped.
#[derive(Debug, Drop)]
enum Job {
    New,
    On(Talk),
    Over,
}

// The job's number, from 1, and the job.
#[derive(Debug, Drop)]
struct Place {
    number: u64,
    job: Job,
}

// The slices that a session is lent.
#[derive(Drop)]
struct Desk {
    buf: [u8; LINE_BYTES],
    labels: [u64; LABEL_WORDS],
    store: [u64; STORE_WORDS],
    out: [u8; 65536],
}

// The place of the next mark from a place on, or the end.
fn until(bytes: &[u8], from: usize) -> usize
    requires { from ≤ length bytes.now }
    ensures { (from ≤ result) × (result ≤ length bytes.now) }
{
    for i in from..bytes.len() {
        if bytes[i] == MARK {
            return i;
        }
    }
    bytes.len()
}

// Writes these bytes. A write that fails is passed over: the output is compared with the file `stdout`, and then lacks them.
fn say(rt: &impl Print, bytes: &[u8]) {
    let _ = rt.write_all(bytes);
}

// The line that names a job.
fn name(rt: &impl Print, number: u64) {
    say(rt, b"job=");
    let _ = rt.print(number);
    say(rt, b"\n");
}

// The next bytes of a job that goes on.
fn talk(rt: &impl Print, t: Talk, bytes: &[u8], desk: &mut Desk) -> Job
    requires { Open (jobs.On t) bytes.now }
    ensures { Leads (jobs.On t) bytes.now result }
{
    match run(
        t,
        bytes,
        &mut desk.buf,
        &mut desk.labels,
        &mut desk.store,
        &mut desk.out,
    ) {
        Ok(Ran::On(next, said)) => {
            say(rt, &desk.out[..said]);
            Job::On(next)
        }
        Ok(Ran::Stop(said)) => {
            say(rt, &desk.out[..said]);
            Job::Over
        }
        // Only on slices of other sizes: it is proved that these are not.
        Err(_) => unreachable!(),
    }
}

// The next bytes of any job.
fn piece(rt: &impl Print, p: Place, bytes: &[u8], desk: &mut Desk) -> Job
    requires { Open p.job bytes.now }
    ensures { Leads p.job bytes.now result }
{
    match p.job {
        Job::New => {
            name(rt, p.number);
            talk(rt, start(), bytes, desk)
        }
        Job::On(t) => talk(rt, t, bytes, desk),
        Job::Over => Job::Over,
    }
}

// The end of a job.
fn end(rt: &impl Print, job: Job, out: &mut [u8]) {
    if let Job::On(t) = job {
        let said = last(t, out);
        say(rt, &out[..said]);
    }
}

// The bytes up to the next mark or the end of the block, and the mark.
fn step(rt: &impl Print, p: Place, bytes: &[u8], marked: bool, desk: &mut Desk) -> Place
    requires { Open p.job bytes.now × (p.number < 2 ^ 63) }
    ensures { Leads p.job bytes.now result.job × (result.number ≤ p.number + 1) }
{
    let number = p.number;
    let job = piece(rt, p, bytes, desk);
    if marked {
        end(rt, job, &mut desk.out);
        return Place {
            number: number + 1,
            job: Job::New,
        };
    }
    Place { number, job }
}

// A block of the input.
fn block(rt: &impl Print, from: Place, bytes: &[u8], desk: &mut Desk) -> Place
    requires { Open from.job bytes.now × (from.number + length bytes.now < 2 ^ 63) }
    ensures { Leads from.job bytes.now result.job × (result.number ≤ from.number + length bytes.now + 1) }
{
    let mut p = from;
    let mut i = 0;
    // By hand: a mark may be the last byte of a block, or none be left, and `until` says which.
    while i < bytes.len() {
        let e = until(bytes, i);
        p = step(rt, p, &bytes[i..e], e < bytes.len(), desk);
        i = e + 1;
    }
    p
}

fn main(rt: HostRuntime) -> io::Result<()> {
    let mut p = Place {
        number: 1,
        job: Job::New,
    };
    let mut desk = Desk {
        buf: [0; LINE_BYTES],
        labels: [0; LABEL_WORDS],
        store: [0; STORE_WORDS],
        out: [0; 65536],
    };
    let mut input = rt.stdin();
    // A proved loop ends: so many reads are never made.
    for _turn in 0..1u64 << 40 {
        let mut bytes = [0u8; 512];
        let n = input.read(&mut bytes)?;
        if n == 0 {
            break;
        }
        p = block(&rt, p, &bytes[..n], &mut desk);
    }
    Ok(())
}
