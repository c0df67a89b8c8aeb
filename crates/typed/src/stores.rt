// The store as a value. Each method says its answer (`answer`: the definition's number), when each refusal comes (the clauses named for one), what became
// of the words where it is done (`done`), and that they are as they were where it is refused (`refused`). `loan` says that the store still borrows the
// words that it was made of, so that their owner knows every word once the store is gone.
ghost use Rattle.std.specs.Prelude.{◌≡◌, ◌≢◌, ◌≤◌, ◌<◌, ◌+◌, ◌↔◌, [], ◌∷◌, length, Ok, IsOk, IsTrue, OnOk, OnErr, IfOk, IsErrOf};
ghost use Rattle.std.specs.Result.{ForErr};
ghost use Rattle.model.specs.Calls.{call_gate, call_turn, call_record, call_measure, call_reset, call_ccx, call_ccz, call_kill, call_clear, call_read, call_look, open_answer, opened, reading, gate_qubits, not_killable, not_readable};
ghost use Rattle.model.specs.Search.{look};
ghost use Rattle.frame.specs.Axes.{kind_of};
ghost use Rattle.gating.specs.Gates.{gate_of};
ghost use Rattle.store.specs.Stores.{HeldTo};
ghost use Rattle.store.specs.Refusals as store;
ghost use Rattle.store.specs.Refusals.{open_number_of};
ghost use Rattle.store.specs.Held.{IsStore, ForState, Gives, Does};
ghost use Rattle.typed.specs.declared.looks.Found.TheVariants as found;
ghost use Rattle.typed.specs.Looks.{look_of, plain_of, reading_of, FindsExactly, HasEnough};
ghost use Rattle.typed.specs.Openings.{opening_by, FitsSizes, FitsEvents, FitsWords};
ghost use Rattle.typed.specs.Refusals.{number_of, IsOnStore, LacksQubit, RepeatsQubit, LacksRoom};
ghost use Rattle.typed.specs.Turns.{eighths_of};

use crate::ids::EventId;
use crate::looks::Look;
use crate::refusals::{Refusal, on_store};
use crate::turns::Turn;
use frame::axes::Kind;
use gating::gates::Gate;
use history::events::Rotation;
use history::findings;
use history::forms::Form;
use store::refusals::OpenError;

// What an opening fixes: how many qubits, room for how many events, how many steps for each look, and the form of the lists.
#[derive(Clone, Copy, Debug, PartialEq, Eq)]
pub struct Plan {
    pub qubits: usize,
    pub events: usize,
    pub steps: u64,
    pub form: Form,
}

// Makes the words a store's, with four words of labels for each qubit (X high, X low, Z high, Z low); or leaves them as they are.
pub fn open(words: &mut [u64], plan: Plan, labels: &[u64]) -> Result<(), OpenError>
    ensures answer { open_answer (opening_by plan labels.now words.old) ≡ open_number_of result }
    ensures fits { IsOk result ↔ (FitsSizes plan × FitsEvents plan × FitsWords plan labels.now words.old) }
    ensures sizes { IsErrOf result OpenError.Sizes ↔ ¬ FitsSizes plan }
    ensures events { IsErrOf result OpenError.Events ↔ (FitsSizes plan × ¬ FitsEvents plan) }
    ensures too_short { IsErrOf result OpenError.TooShort ↔ (FitsSizes plan × FitsEvents plan × ¬ FitsWords plan labels.now words.old) }
    ensures done { OnOk result (HeldTo (opened (opening_by plan labels.now words.old)) words.old words.new) }
    ensures store { OnOk result (IsStore words.new) }
    ensures refused { OnErr result (words.new ≡ words.old) }
{
    partner::calls::open(
        words,
        plan.qubits,
        plan.events,
        plan.steps,
        plan.form,
        labels,
    )
}

// A store over words that the caller lends.
#[derive(Drop)]
pub struct Store<'a> {
    words: &'a mut [u64],
    ghost holds: { IsStore words.now },
}

impl<'a> Store<'a> {
    // The store that the words hold, as an opening or an earlier store left them.
    pub fn new(words: &'a mut [u64]) -> Store<'a>
        requires { IsStore words.old }
        ensures words { result.words.now ≡ words.old }
        ensures loan { result.words.ghost_name ≡ words.entry.ghost_name }
    {
        Store { words }
    }

    // Applies a gate to the frames.
    pub fn gate(&mut self, gate: Gate) -> Result<(), Refusal>
        ensures answer { Gives (call_gate (gate_of gate)) self.old.words.now (number_of result) }
        ensures no_such_qubit { ForState self.old.words.now (λ m. IsErrOf result Refusal.NoSuchQubit ↔ LacksQubit (gate_qubits (gate_of gate)) m) }
        ensures same_qubit { ForState self.old.words.now (λ m. IsErrOf result Refusal.SameQubit ↔ RepeatsQubit (gate_qubits (gate_of gate)) m) }
        ensures done { OnOk result (Does (call_gate (gate_of gate)) self.old.words.now self.new.words.now) }
        ensures refused { OnErr result (self.new.words.now ≡ self.old.words.now) }
        ensures loan { self.new.words.ghost_name ≡ self.old.words.ghost_name }
    {
        on_store(partner::calls::gate(self.words, gate))
    }

    // Applies the gates of a turn of a kind about qubit q.
    pub fn turn(&mut self, kind: Kind, turn: Turn, q: usize) -> Result<(), Refusal>
        ensures answer { Gives (call_turn (kind_of kind) (eighths_of turn) q) self.old.words.now (number_of result) }
        ensures no_such_qubit { ForState self.old.words.now (λ m. IsErrOf result Refusal.NoSuchQubit ↔ (m.given.n ≤ q)) }
        ensures done { OnOk result (Does (call_turn (kind_of kind) (eighths_of turn) q) self.old.words.now self.new.words.now) }
        ensures refused { OnErr result (self.new.words.now ≡ self.old.words.now) }
        ensures loan { self.new.words.ghost_name ≡ self.old.words.ghost_name }
    {
        on_store(partner::calls::turn(self.words, kind, turn.eighths(), q))
    }

    // Records a rotation of a kind about qubit q.
    pub fn record(&mut self, kind: Kind, q: usize, tag: u32) -> Result<EventId, Refusal>
        ensures answer { Gives (call_record (kind_of kind) q tag) self.old.words.now (number_of result) }
        ensures no_such_qubit { ForState self.old.words.now (λ m. IsErrOf result Refusal.NoSuchQubit ↔ (m.given.n ≤ q)) }
        ensures full { ForState self.old.words.now (λ m. IsErrOf result Refusal.Full ↔ ((q < m.given.n) × (m.given.capacity < length m.events + 1))) }
        ensures done { OnOk result (Does (call_record (kind_of kind) q tag) self.old.words.now self.new.words.now) }
        ensures id { IfOk result (λ id. ForState self.old.words.now (λ m. id.0 ≡ length m.events)) }
        ensures refused { OnErr result (self.new.words.now ≡ self.old.words.now) }
        ensures loan { self.new.words.ghost_name ≡ self.old.words.ghost_name }
    {
        numbered(partner::calls::record(self.words, kind, q, tag))
    }

    // Records the blocker of a measurement.
    pub fn measure(&mut self, q: usize) -> Result<EventId, Refusal>
        ensures answer { Gives (call_measure q) self.old.words.now (number_of result) }
        ensures no_such_qubit { ForState self.old.words.now (λ m. IsErrOf result Refusal.NoSuchQubit ↔ (m.given.n ≤ q)) }
        ensures full { ForState self.old.words.now (λ m. IsErrOf result Refusal.Full ↔ ((q < m.given.n) × (m.given.capacity < length m.events + 1))) }
        ensures done { OnOk result (Does (call_measure q) self.old.words.now self.new.words.now) }
        ensures id { IfOk result (λ id. ForState self.old.words.now (λ m. id.0 ≡ length m.events)) }
        ensures refused { OnErr result (self.new.words.now ≡ self.old.words.now) }
        ensures loan { self.new.words.ghost_name ≡ self.old.words.ghost_name }
    {
        numbered(partner::calls::measure(self.words, q))
    }

    // Records the two blockers of a reset, or none.
    pub fn reset(&mut self, q: usize) -> Result<EventId, Refusal>
        ensures answer { Gives (call_reset q) self.old.words.now (number_of result) }
        ensures no_such_qubit { ForState self.old.words.now (λ m. IsErrOf result Refusal.NoSuchQubit ↔ (m.given.n ≤ q)) }
        ensures full { ForState self.old.words.now (λ m. IsErrOf result Refusal.Full ↔ ((q < m.given.n) × (m.given.capacity < length m.events + 2))) }
        ensures done { OnOk result (Does (call_reset q) self.old.words.now self.new.words.now) }
        ensures id { IfOk result (λ id. ForState self.old.words.now (λ m. id.0 ≡ length m.events)) }
        ensures refused { OnErr result (self.new.words.now ≡ self.old.words.now) }
        ensures loan { self.new.words.ghost_name ≡ self.old.words.ghost_name }
    {
        numbered(partner::calls::reset(self.words, q))
    }

    // Records the seven blockers of a ccx with controls a and b and target t, or none.
    pub fn ccx(&mut self, a: usize, b: usize, t: usize) -> Result<EventId, Refusal>
        ensures answer { Gives (call_ccx a b t) self.old.words.now (number_of result) }
        ensures no_such_qubit { ForState self.old.words.now (λ m. IsErrOf result Refusal.NoSuchQubit ↔ LacksQubit (a ∷ b ∷ t ∷ []) m) }
        ensures same_qubit { ForState self.old.words.now (λ m. IsErrOf result Refusal.SameQubit ↔ RepeatsQubit (a ∷ b ∷ t ∷ []) m) }
        ensures full { ForState self.old.words.now (λ m. IsErrOf result Refusal.Full ↔ LacksRoom (a ∷ b ∷ t ∷ []) 7 m) }
        ensures done { OnOk result (Does (call_ccx a b t) self.old.words.now self.new.words.now) }
        ensures id { IfOk result (λ id. ForState self.old.words.now (λ m. id.0 ≡ length m.events)) }
        ensures refused { OnErr result (self.new.words.now ≡ self.old.words.now) }
        ensures loan { self.new.words.ghost_name ≡ self.old.words.ghost_name }
    {
        numbered(partner::calls::ccx(self.words, a, b, t))
    }

    // The same of a ccz.
    pub fn ccz(&mut self, a: usize, b: usize, t: usize) -> Result<EventId, Refusal>
        ensures answer { Gives (call_ccz a b t) self.old.words.now (number_of result) }
        ensures no_such_qubit { ForState self.old.words.now (λ m. IsErrOf result Refusal.NoSuchQubit ↔ LacksQubit (a ∷ b ∷ t ∷ []) m) }
        ensures same_qubit { ForState self.old.words.now (λ m. IsErrOf result Refusal.SameQubit ↔ RepeatsQubit (a ∷ b ∷ t ∷ []) m) }
        ensures full { ForState self.old.words.now (λ m. IsErrOf result Refusal.Full ↔ LacksRoom (a ∷ b ∷ t ∷ []) 7 m) }
        ensures done { OnOk result (Does (call_ccz a b t) self.old.words.now self.new.words.now) }
        ensures id { IfOk result (λ id. ForState self.old.words.now (λ m. id.0 ≡ length m.events)) }
        ensures refused { OnErr result (self.new.words.now ≡ self.old.words.now) }
        ensures loan { self.new.words.ghost_name ≡ self.old.words.ghost_name }
    {
        numbered(partner::calls::ccz(self.words, a, b, t))
    }

    // Kills a rotation that merged away.
    pub fn kill(&mut self, id: EventId) -> Result<(), Refusal>
        ensures answer { Gives (call_kill id.0) self.old.words.now (number_of result) }
        ensures no_such_event { ForState self.old.words.now (λ m. IsErrOf result Refusal.NoSuchEvent ↔ IsTrue (not_killable m.events id.0)) }
        ensures done { OnOk result (Does (call_kill id.0) self.old.words.now self.new.words.now) }
        ensures refused { OnErr result (self.new.words.now ≡ self.old.words.now) }
        ensures loan { self.new.words.ghost_name ≡ self.old.words.ghost_name }
    {
        on_store(partner::calls::kill(self.words, id.0))
    }

    // From now on no rotation recorded so far can be found.
    pub fn clear(&mut self)
        ensures done { Does call_clear self.old.words.now self.new.words.now }
        ensures loan { self.new.words.ghost_name ≡ self.old.words.ghost_name }
    {
        partner::calls::clear(self.words).unwrap();
    }

    // A rotation's tag and sign, and whether it is live, dead ones too.
    pub fn read(&self, id: EventId) -> Result<Rotation, Refusal>
        ensures answer { Gives (call_read id.0) self.now.words.now (number_of result) }
        ensures no_such_event { ForState self.now.words.now (λ m. IsErrOf result Refusal.NoSuchEvent ↔ IsTrue (not_readable m.events id.0)) }
        ensures rotation { IfOk result (λ r. ForState self.now.words.now (λ m. reading_of r ≡ reading m.events id.0)) }
    {
        on_store(partner::calls::read(self.words, id.0))
    }

    // Looks for the partner of a rotation of a kind about qubit q.
    pub fn look(&self, kind: Kind, q: usize) -> Result<Look, Refusal>
        ensures answer { Gives (call_look (kind_of kind) q) self.now.words.now (number_of result) }
        ensures no_such_qubit { ForState self.now.words.now (λ m. IsErrOf result Refusal.NoSuchQubit ↔ (m.given.n ≤ q)) }
        ensures look { IfOk result (λ a. ForState self.now.words.now (λ m. look_of a ≡ look (kind_of kind) q m)) }
        ensures exactly { IfOk result (λ a. ForState self.now.words.now (FindsExactly (kind_of kind) q a)) }
        ensures enough { IfOk result (λ a. ForState self.now.words.now (λ m. HasEnough m → a.found ≢ found.OutOfSteps)) }
    {
        seen(partner::calls::look(self.words, kind, q))
    }

    pub fn words(&self) -> &[u64]
        ensures words { result.now ≡ self.now.words.now }
        ensures store { IsStore self.now.words.now }
    {
        let words = &*self.words;
        words
    }

    // What the caller gets back.
    pub fn into_words(self) -> &'a mut [u64]
        ensures words { result.now ≡ self.entry.words.now }
        ensures store { IsStore result.now }
        ensures loan { result.ghost_name ≡ self.entry.words.ghost_name }
    {
        let Store { words } = self;
        words
    }
}

// The result of a call that records, with the event's number as its type.
fn numbered(answer: Result<usize, store::refusals::Refusal>) -> Result<EventId, Refusal>
    requires { ForErr answer IsOnStore }
    ensures number { number_of result ≡ store.number_of answer }
    ensures value { IfOk result (λ id. answer ≡ Ok id.0) }
{
    let first = on_store(answer)?;
    Ok(EventId(first))
}

// The result of a look, with the event's number as its type.
fn seen(answer: Result<findings::Look, store::refusals::Refusal>) -> Result<Look, Refusal>
    requires { ForErr answer IsOnStore }
    ensures number { number_of result ≡ store.number_of answer }
    ensures value { IfOk result (λ a. answer ≡ Ok (plain_of a)) }
{
    let look = on_store(answer)?;
    Ok(Look::from(look))
}
