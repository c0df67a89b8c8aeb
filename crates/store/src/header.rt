// The header of a store: word 0 is the length of the slice at its opening, then n, the form (0 scalar, 1 sliced), E and A. A call first asks whether
// the slice that it is lent is shorter than that (01: answer 3), and whether the sizes are in their ranges and have the words they need: on words that no opening
// wrote a call must stay inside its slice too (answer 9).
ghost use Rattle.std.specs.Prelude.{◌≡◌, ◌≤◌, ◌^◌, get_or, MatchResult};
ghost use Rattle.history.specs.Words.{history_room};
ghost use Rattle.history.specs.Sizes.{form_of, Narrow};
ghost use Rattle.store.specs.Stores.{form_code, history_place};
ghost use Rattle.store.specs.Checks.{Framing, Fit, form_at, sizes_at, Spans, Unsound};

use super::refusals::Refusal;
use history::forms::Form;
use history::layout::Layout;

// The sizes of a store: n qubits, l words to a plane, the form of its lists, the room for events and the steps of a look; and where the history's
// part begins and ends.
#[derive(Clone, Copy, Debug, PartialEq, Eq)]
pub struct Sizes {
    pub n: usize,
    pub l: usize,
    pub form: Form,
    pub cap: usize,
    pub allowance: u32,
    pub at: usize,
    pub end: usize,
}

impl Sizes {
    // What the history has to know of them.
    #[inline]
    pub fn layout(&self) -> Layout
        requires { self.now.cap ≤ 2 ^ 24 }
        ensures { Spans self.now result }
    {
        let Sizes {
            form,
            n,
            l,
            cap,
            ..
        } = *self;
        Layout { form, n, l, cap }
    }
}

// Where the history's part begins: behind the header and both frames.
#[inline]
pub fn history_place(n: usize, l: usize) -> usize
    requires { (n ≤ 23168) × (l ≤ 362) }
    ensures { result ≡ history_place n l }
{
    14 + (2 * n * (2 * l + 1) + 2 * (2 * n))
}

// What a gate and a turn have to know of a store, n and l: the frames stand right behind the header, so that neither E nor the form is read.
pub fn frame_sizes(s: &[u64]) -> Result<(usize, usize), Refusal>
    ensures { MatchResult result (λ z. Framing z.0 z.1 s.now) (λ e. Unsound e s.now) }
{
    if s.len() < 14 {
        return Err(Refusal::TooShort);
    }
    let size = s[0] as usize;
    if s.len() < size {
        return Err(Refusal::TooShort);
    }
    let n = s[1] as usize;
    if n == 0 || 23168 < n {
        return Err(Refusal::Corrupt);
    }
    let l = (n + 63) / 64;
    if size < history_place(n, l) {
        return Err(Refusal::Corrupt);
    }
    Ok((n, l))
}

// The words of the history's part.
pub fn history_room(form: Form, n: usize, l: usize, cap: usize) -> usize
    requires { (n ≤ 23168) × (l ≤ 362) × (cap ≤ 2 ^ 24) }
    ensures { result ≡ history_room (form_of form) n cap l }
{
    let counts = 2 + 6 * cap + cap * (2 * l) + (cap + 63) / 64;
    match form {
        Form::Scalar => counts + 2 * 64 + 64 * cap,
        Form::Sliced => {
            let blocks = (cap + 63) / 64;
            counts + 2 * n + n * (cap + blocks * (2 * n) + blocks)
        }
    }
}

// What every other call asks of a store. The sizes are not in the answer: with them it would go through memory (docs/SPEED.md). `sizes_of` reads
// them again where they are used.
pub fn check(s: &[u64]) -> Result<(), Refusal>
    ensures { MatchResult result (λ _. Fit (sizes_at s.now) s.now) (λ e. Unsound e s.now) }
{
    let (n, l) = frame_sizes(s)?;
    let form = s[2];
    if form == 0 {
        sized(s, n, l, Form::Scalar)
    } else if form == 1 && n <= 32 {
        sized(s, n, l, Form::Sliced)
    } else {
        Err(Refusal::Corrupt)
    }
}

// The same of a store of this form, n and l.
fn sized(s: &[u64], n: usize, l: usize, form: Form) -> Result<(), Refusal>
    requires { Framing n l s.now × (get_or s.now 2 0 ≡ form_code (form_of form)) × Narrow (form_of form) n l }
    ensures { MatchResult result (λ _. Fit (sizes_at s.now) s.now) (λ e. Unsound e s.now) }
{
    let size = s[0] as usize;
    let cap = s[3] as usize;
    let allowance = s[4];
    if cap == 0 || 16777216 < cap || 1048576 < allowance {
        return Err(Refusal::Corrupt);
    }
    let end = history_place(n, l) + history_room(form, n, l, cap);
    if size < end {
        return Err(Refusal::Corrupt);
    }
    Ok(())
}

// No impl of From: the form is history's type and the word is std's.
// The form that a word of the header says.
fn form_at(word: u64) -> Form
    ensures { result ≡ form_at word }
{
    if word == 0 {
        Form::Scalar
    } else {
        Form::Sliced
    }
}

// The sizes of a store whose header was found in order.
pub fn sizes_of(s: &[u64]) -> Sizes
    requires { Fit (sizes_at s.now) s.now }
    ensures { Fit result s.now }
{
    let n = s[1] as usize;
    let l = (n + 63) / 64;
    let form = form_at(s[2]);
    let cap = s[3] as usize;
    let allowance = s[4] as u32;
    let at = history_place(n, l);
    let end = at + history_room(form, n, l, cap);
    Sizes {
        n,
        l,
        form,
        cap,
        allowance,
        at,
        end,
    }
}
