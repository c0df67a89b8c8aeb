// How many words a host has to lend.
ghost use Rattle.std.specs.Prelude.{◌≡◌};
ghost use Rattle.history.specs.Sizes.{form_of};
ghost use Rattle.host.specs.Host.{needed};

use history::forms::Form;
use store::header::{history_place, history_room};
use store::opening::check_opening;

// The need of these sizes, or 0 where no opening accepts them: the number of an opening with no steps, labels as many as n asks for and the longest
// slice tells it.
pub fn needed_words(n: usize, events: usize, form: Form) -> usize
    ensures { result ≡ needed n events (form_of form) }
{
    // No opening accepts more qubits, and 4 n stays in its word.
    if 23168 < n {
        return 0;
    }
    if check_opening(n, events, 0, form, 4 * n, usize::MAX).is_err() {
        return 0;
    }
    let l = (n + 63) / 64;
    history_place(n, l) + history_room(form, n, l, events)
}
