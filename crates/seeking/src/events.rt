// Kill, clear and read: the history's part of the store is lent to `history`. Nothing is asked of the words; specs/Promises.antt of `store` says
// what `Meets` and `Answers` promise.
ghost use Rattle.model.specs.Calls.{call_kill, call_clear, call_read};
ghost use Rattle.store.specs.Promises.{told_done, told_read, Answers, Meets};

use history::events::Rotation;
use store::header::{check, sizes_of};
use store::refusals::Refusal;

// Kills the rotation `id`. "7: no such event, a blocker, or dead"
pub fn kill(s: &mut [u64], id: usize) -> Result<(), Refusal>
    ensures { Meets (call_kill id) s.old (told_done result) s.new }
{
    check(s)?;
    let z = sizes_of(s);
    Ok(history::kill::kill(&mut s[z.at..z.end], &z.layout(), id)?)
}

// No rotation recorded so far can be found any more.
pub fn clear(s: &mut [u64]) -> Result<(), Refusal>
    ensures { Meets call_clear s.old (told_done result) s.new }
{
    check(s)?;
    let z = sizes_of(s);
    history::record::clear(&mut s[z.at..z.end]);
    Ok(())
}

// The tag and the sign of the rotation `id`, and whether it is live. "7: no such event or a blocker"
pub fn read(s: &[u64], id: usize) -> Result<Rotation, Refusal>
    ensures { Answers (call_read id) s.now (told_read result) }
{
    check(s)?;
    let z = sizes_of(s);
    match history::events::read(&s[z.at..z.end], &z.layout(), id)? {
        Some(rotation) => Ok(rotation),
        None => Err(Refusal::NoSuchEvent),
    }
}
