// The sizes that an opening fixed, and where each room of the history's words begins (docs/STORE.md).
ghost use Rattle.std.specs.Prelude.{◌≡◌, ◌+◌, ◌*◌, ◌≤◌, ◌<◌, ◌^◌};
ghost use Rattle.history.specs.Words.{label_place, tag_place, sig_place, axis_place, alive_place, count_place};

use super::forms::Form;

// The form of the lists, n qubits, l words to a plane of an axis, and room for `cap` events.
#[derive(Clone, Copy, Debug, PartialEq, Eq)]
pub struct Layout {
    pub form: Form,
    pub n: usize,
    pub l: usize,
    pub cap: usize,
    ghost few: { cap ≤ 2 ^ 24 },
}

impl Layout {
    // The two words of the label of event `id`.
    pub fn label(&self, id: usize) -> usize
        requires { id ≤ self.now.cap }
        ensures { result ≡ label_place self.now.cap id }
    {
        2 + 2 * self.cap + 2 * id
    }

    // The tag and the sign of event `id`.
    pub fn tag(&self, id: usize) -> usize
        requires { id ≤ self.now.cap }
        ensures { result ≡ tag_place self.now.cap id }
    {
        2 + 4 * self.cap + id
    }

    // The signatures of the events.
    pub fn signatures(&self) -> usize
        ensures { result ≡ sig_place self.now.cap }
    {
        2 + 5 * self.cap
    }

    // The signature of event `id`.
    pub fn signature(&self, id: usize) -> usize
        requires { id ≤ self.now.cap }
        ensures { result ≡ sig_place self.now.cap + id }
    {
        self.signatures() + id
    }

    // The axes of the events.
    pub fn axes(&self) -> usize
        ensures { result ≡ axis_place self.now.cap }
    {
        2 + 6 * self.cap
    }

    // The axis of event `id`.
    pub fn axis(&self, id: usize) -> usize
        requires { (id < self.now.cap) × (alive_place self.now.cap self.now.l < 2 ^ 64) }
        ensures { result ≡ axis_place self.now.cap + id * (2 * self.now.l) }
    {
        self.axes() + id * (2 * self.l)
    }

    // The set of live events.
    pub fn alive(&self) -> usize
        requires { self.now.l ≤ 362 }
        ensures { result ≡ alive_place self.now.cap self.now.l }
    {
        self.axes() + self.cap * (2 * self.l)
    }

    // The counts of the lists.
    #[tactic(auto, unfolding(model::specs::Events::words))]
    pub fn counts(&self) -> usize
        requires { self.now.l ≤ 362 }
        ensures { result ≡ count_place self.now.cap self.now.l }
    {
        self.alive() + self.cap.div_ceil(64)
    }
}
