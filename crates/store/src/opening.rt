// The opening of a store: its refusals in 01's order, then the header, both frames and an empty history, over any words ("Opening sets every word
// it relies on; old contents don't matter").
ghost use Rattle.std.specs.Prelude.{◌≡◌, ◌≤◌, length};
ghost use Rattle.model.specs.Calls.{is_too_wide, open_number, open_answer, opened, opening};
ghost use Rattle.history.specs.Sizes.{form_of};
ghost use Rattle.store.specs.Stores.{form_code, StoredTo};
ghost use Rattle.store.specs.Promises.{told_open, Opens};
ghost use Rattle.store.specs.Refusals.{open_number_of};
ghost use Rattle.store.specs.Checks.{Stamped};

use super::header::{history_place, history_room};
use super::refusals::OpenError;
use history::forms::Form;
use history::layout::Layout;

// "The sliced form takes n up to 32."
fn too_wide(form: Form, n: usize) -> bool
    ensures { result ≡ is_too_wide (form_of form) n }
{
    match form {
        Form::Scalar => false,
        Form::Sliced => 32 < n,
    }
}

// The sizes stay parameters one by one here and below, as the public call has them (README); `typed` has them as one plan.

// Whether an opening is accepted: "At opening 1, 2, 3".
pub fn check_opening(
    n: usize,
    cap: usize,
    allowance: u64,
    form: Form,
    labels: usize,
    words: usize,
) -> Result<(), OpenError>
    ensures { open_number_of result ≡ open_number n cap allowance (form_of form) labels words }
{
    if n == 0 || 23168 < n || 1048576 < allowance || too_wide(form, n) {
        return Err(OpenError::Sizes);
    }
    if cap == 0 || 16777216 < cap {
        return Err(OpenError::Events);
    }
    let l = (n + 63) / 64;
    if 33554432 < 2 * l * cap {
        return Err(OpenError::Events);
    }
    if labels != 4 * n || words < history_place(n, l) + history_room(form, n, l, cap) {
        return Err(OpenError::TooShort);
    }
    Ok(())
}

// No impl of From: the form is history's type and the word is std's.
// The word of the header that says the form.
fn form_code(form: Form) -> u64
    ensures { result ≡ form_code (form_of form) }
{
    match form {
        Form::Scalar => 0,
        Form::Sliced => 1,
    }
}

// The header's five words.
fn stamp(s: &mut [u64], n: usize, cap: usize, allowance: u64, form: Form)
    requires { 14 ≤ length s.old }
    ensures { Stamped s.old n cap allowance (form_of form) s.new }
{
    s[0] = s.len() as u64;
    s[1] = n as u64;
    s[2] = form_code(form);
    s[3] = cap as u64;
    s[4] = allowance;
}

// All that a store relies on once it is opened.
fn begin(s: &mut [u64], n: usize, cap: usize, allowance: u64, form: Form, labels: &[u64])
    requires { open_answer (opening n cap allowance (form_of form) labels.now (length s.old)) ≡ 0 }
    ensures { StoredTo (opened (opening n cap allowance (form_of form) labels.now (length s.old))) s.old s.new }
{
    let l = (n + 63) / 64;
    let at = history_place(n, l);
    let end = at + history_room(form, n, l, cap);
    stamp(s, n, cap, allowance, form);
    frame::opening::fresh(&mut s[14..at], n, l, labels);
    history::opening::fresh(&mut s[at..end], &Layout { form, n, l, cap });
}

// Opens a store: n qubits, room for cap events, the steps of a look, the form of the lists, and the labels, four words a qubit.
pub fn open(
    s: &mut [u64],
    n: usize,
    cap: usize,
    allowance: u64,
    form: Form,
    labels: &[u64],
) -> Result<(), OpenError>
    ensures { Opens (opening n cap allowance (form_of form) labels.now (length s.old)) s.old (told_open result) s.new }
{
    check_opening(n, cap, allowance, form, labels.len(), s.len())?;
    begin(s, n, cap, allowance, form, labels);
    Ok(())
}
