// The line program (01, "The line program"): a job comes from standard input, its answers go to standard output. What they are is `session`'s; here bytes
// are read in blocks and handed on, and the bytes handed back are written.
#![tactic(auto)]

use session::run::{LABEL_WORDS, STORE_WORDS, last, run, start};
use session::stages::Ran;
use std::io;
use std::io::Read;
use text::lines::LINE_BYTES;

// Only the end of the input (a read of no bytes) ends a job well. After a read or a write that fails, nothing more is said: there is no end line, and the
// error is the program's.
fn main(rt: HostRuntime) -> io::Result<()> {
    let mut t = start();
    let mut buf = [0u8; LINE_BYTES];
    let mut labels = [0u64; LABEL_WORDS];
    let mut store = [0u64; STORE_WORDS];
    let mut out = [0u8; 65536];
    let mut input = rt.stdin();
    // A proved loop ends: so many reads are never made.
    for _turn in 0..1u64 << 40 {
        let mut block = [0u8; 512];
        let n = input.read(&mut block)?;
        if n == 0 {
            let said = last(t, &mut out);
            return rt.write_all(&out[..said]);
        }
        match run(t, &block[..n], &mut buf, &mut labels, &mut store, &mut out) {
            Ok(Ran::On(next, said)) => {
                rt.write_all(&out[..said])?;
                t = next;
            }
            Ok(Ran::Stop(said)) => return rt.write_all(&out[..said]),
            // Only on slices of other sizes: it is proved that these are not.
            Err(_) => unreachable!(),
        }
    }
    Ok(())
}
