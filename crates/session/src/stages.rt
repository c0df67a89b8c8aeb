// Where a job stands, by value.
ghost use Rattle.std.specs.Prelude.{◌↔◌, IsTrue};

use history::forms::Form;

// What this program takes: so many qubits, so many events.
pub const MAX_QUBITS: usize = 32;

pub const MAX_EVENTS: usize = 48;

// Which line comes next, with what the lines before it gave.
#[derive(Clone, Copy, Debug, PartialEq, Eq)]
pub enum Stage {
    Qubits,
    Form {
        n: usize,
    },
    Events {
        n: usize,
        form: Form,
    },
    Steps {
        n: usize,
        form: Form,
        events: usize,
    },
    // q labels are read, and stand in the lent words of labels.
    Labels {
        n: usize,
        form: Form,
        events: usize,
        steps: u64,
        q: usize,
    },
    // The store is open; so many events were recorded, and so many of them were not killed.
    Running {
        events: u64,
        live: u64,
    },
}

impl Stage {
    ghost use Rattle.session.specs.Desk.{Within};

    // Its numbers are in their ranges.
    pub fn is_in_range(self) -> bool
        ensures { IsTrue result ↔ Within self }
    {
        match self {
            Stage::Qubits | Stage::Running { .. } => true,
            Stage::Form { n } | Stage::Events { n, .. } => n <= MAX_QUBITS,
            Stage::Steps { n, events, .. } => n <= MAX_QUBITS && events <= MAX_EVENTS,
            Stage::Labels { n, events, q, .. } => {
                n <= MAX_QUBITS && events <= MAX_EVENTS && q < n
            }
        }
    }
}

// How many lines are finished, how many bytes of the next are held in the lent line buffer, and the stage.
#[derive(Clone, Copy, Debug, PartialEq, Eq)]
pub struct Talk {
    pub line: u64,
    pub held: usize,
    pub stage: Stage,
}

// A job goes on from there, or stops; with how many bytes are said.
#[derive(Clone, Copy, Debug, PartialEq, Eq)]
pub enum Ran<T> {
    On(T, usize),
    Stop(usize),
}
