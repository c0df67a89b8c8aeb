// The set of the live events, a bit each, in the words that hold the lists.
ghost use Rattle.std.specs.Prelude.{◌≡◌, Ok, IsErr, OnOk, ◌+◌, ◌≤◌, ◌<◌, length};
ghost use Rattle.model.specs.Events.{words};
ghost use Rattle.lists.specs.Lists.{is_live};

use pauli::corrupt::Corrupt;
use pauli::sets::contains;

// It stands from `at` on, for so many events.
#[derive(Clone, Copy, Debug, PartialEq, Eq)]
pub struct LiveSet {
    pub at: usize,
    pub events: usize,
}

impl LiveSet {
    // Whether the event `id` is live.
    pub fn has(self, h: &[u64], id: u64) -> Result<bool, Corrupt>
        requires { self.at + words self.events ≤ length h.now }
        ensures unknown { self.events ≤ id → IsErr result }
        ensures inside { OnOk result (id < self.events) }
        ensures known { id < self.events → result ≡ Ok (is_live h.now self.at id) }
    {
        let e = id as usize;
        if self.events <= e {
            return Err(Corrupt);
        }
        Ok(contains(&h[self.at..], e))
    }
}
