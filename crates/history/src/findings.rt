// What a look finds, and its first phase on the way.
use lists::budget::Budget;

// What phase 1 finds, with the steps left. No Option: that it found nothing and that the steps gave out are two answers, and each has its steps.
#[derive(Clone, Copy, Debug, PartialEq, Eq)]
pub enum Candidate {
    Match(usize, Budget),
    Nothing(Budget),
    Out(Budget),
}

// What a look finds: a partner with the relative sign, or that there is none, or that an event stands in the way, or that the allowance was too small.
// No Option: the three answers without a partner are told apart.
#[derive(Clone, Copy, Debug, PartialEq, Eq)]
pub enum Found {
    Partner { id: usize, sign: i8 },
    Nothing,
    Blocked,
    OutOfSteps,
}

// What a look says, with the steps that it spent.
#[derive(Clone, Copy, Debug, PartialEq, Eq)]
pub struct Look {
    pub found: Found,
    pub steps: u32,
}
