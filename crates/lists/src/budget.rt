// The steps that a look may still spend (the Rust's `Budget`), and what the scan of a list answers.
ghost use Rattle.std.specs.Prelude.{◌≡◌};
ghost use Rattle.lists.specs.Scans.{spend_of};

// Steps left: a quantity apart from event numbers.
#[derive(Clone, Copy, Debug, PartialEq, Eq)]
pub struct Budget(pub u32);

impl Budget {
    // Spending exactly what is left succeeds.
    #[tactic(auto, unfolding(crate::specs::Scans::spend_of, crate::specs::Scans::steps))]
    pub fn spend(self, cost: u32) -> Option<Budget>
        ensures { result ≡ spend_of self cost }
    {
        self.0.checked_sub(cost).map(Budget)
    }
}

// What a scan finds, with the steps left.
#[derive(Clone, Copy, Debug, PartialEq, Eq)]
pub enum Scan {
    Clear(Budget),
    Blocked(Budget),
    Out(Budget),
}
