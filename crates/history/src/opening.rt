// An empty history, over any words: no events, no clear, empty buckets and empty lists. No other word is written.
ghost use Rattle.std.specs.Prelude.{◌≡◌, ◌+◌, ◌*◌};
ghost use Rattle.model.specs.Events.{Opening, words};
ghost use Rattle.model.specs.Store.{list_count};
ghost use Rattle.model.specs.Calls.{opened};
ghost use Rattle.history.specs.Sizes.{form_of, Fits, HeldTo};

use super::forms::Form;
use super::layout::Layout;

// How many lists a form has.
fn list_count(form: Form, n: usize) -> usize
    ensures { result ≡ list_count (form_of form) n }
{
    match form {
        Form::Scalar => 64,
        Form::Sliced => n,
    }
}

// The history of a state that was just opened.
pub fn fresh(h: &mut [u64], layout: &Layout)
    requires { Fits layout.now h.old }
    ensures { (o : Opening) → o.form ≡ form_of layout.now.form → o.n ≡ layout.now.n → words o.n ≡ layout.now.l → o.capacity ≡ layout.now.cap → HeldTo layout.now (opened o) h.old h.new }
{
    let lists = list_count(layout.form, layout.n);
    pauli::fill::clear(h, 0, 2 + layout.cap);
    pauli::fill::clear(h, layout.counts(), 2 * lists);
}
