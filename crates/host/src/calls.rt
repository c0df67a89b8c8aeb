// The calls of `partner` as C sees them: a slice is a pointer and a length, a reference a pointer (include/tillbonnet.h). Each gives back 01's
// number, 0 for done, or 10 for a number that names no gate or kind; what else a call says goes to the last argument, which any other answer
// leaves as it was.
ghost use Rattle.std.specs.Prelude.{◌≡◌, length};
ghost use Rattle.model.specs.Frame as model;
ghost use Rattle.model.specs.Events.{Form};
ghost use Rattle.model.specs.Calls.{call_gate, call_turn, call_record, call_measure, call_reset, call_ccx, call_ccz, call_kill, call_clear, call_read, call_look, opening};
ghost use Rattle.host.specs.Numbers.{named, gates, kinds, forms};
ghost use Rattle.host.specs.Host.{needed, Lent, Named, Opened, Done, Recorded, Asked};

use super::named::{form_named, gate_named, kind_named};
use super::sizes::needed_words;
use super::words::{first_of, number_of, open_number_of, reading_into, sight_into};

// The answer to a number that names no gate or kind.
const UNKNOWN: u32 = 10;

// ---- opening

// The words that a store of these sizes needs, or 0 where no opening accepts them.
#[unsafe(no_mangle)]
pub extern "C" fn tillbonnet_need(n: usize, events: usize, form: u64) -> usize
    ensures { Named (named forms form) (λ (f : Form). result ≡ needed n events f) (result ≡ 0) }
{
    match form_named(form) {
        Some(f) => needed_words(n, events, f),
        None => 0,
    }
}

#[unsafe(no_mangle)]
pub extern "C" fn tillbonnet_open(
    s: &mut [u64],
    n: usize,
    events: usize,
    steps: u64,
    form: u64,
    labels: &[u64],
) -> u32
    ensures { Named (named forms form) (λ (f : Form). Opened (opening n events steps f labels.now (length s.old)) s.old result s.new) ((result ≡ 1) × (s.new ≡ s.old)) }
{
    match form_named(form) {
        Some(f) => open_number_of(partner::calls::open(s, n, events, steps, f, labels)),
        None => 1,
    }
}

// ---- frames

#[unsafe(no_mangle)]
pub extern "C" fn tillbonnet_gate(s: &mut [u64], gate: u64, a: usize, b: usize) -> u32
    ensures { Named (named (gates a b) gate) (λ (g : model.Gate). Done (call_gate g) s.old result s.new) ((result ≡ 10) × (s.new ≡ s.old)) }
{
    match gate_named(gate, a, b) {
        Some(g) => number_of(partner::calls::gate(s, g)),
        None => UNKNOWN,
    }
}

#[unsafe(no_mangle)]
pub extern "C" fn tillbonnet_turn(s: &mut [u64], kind: u64, k: u64, q: usize) -> u32
    ensures { Named (named kinds kind) (λ (d : model.Kind). Done (call_turn d k q) s.old result s.new) ((result ≡ 10) × (s.new ≡ s.old)) }
{
    match kind_named(kind) {
        Some(d) => number_of(partner::calls::turn(s, d, k, q)),
        None => UNKNOWN,
    }
}

// ---- events

#[unsafe(no_mangle)]
pub extern "C" fn tillbonnet_record(
    s: &mut [u64],
    kind: u64,
    q: usize,
    tag: u32,
    first: &mut usize,
) -> u32
    ensures { Named (named kinds kind) (λ (d : model.Kind). Recorded (call_record d q tag) s.old first.old result s.new first.new) ((result ≡ 10) × (s.new ≡ s.old) × (first.new ≡ first.old)) }
{
    match kind_named(kind) {
        Some(d) => first_of(partner::calls::record(s, d, q, tag), first),
        None => UNKNOWN,
    }
}

#[unsafe(no_mangle)]
pub extern "C" fn tillbonnet_measure(s: &mut [u64], q: usize, first: &mut usize) -> u32
    ensures { Recorded (call_measure q) s.old first.old result s.new first.new }
{
    first_of(partner::calls::measure(s, q), first)
}

#[unsafe(no_mangle)]
pub extern "C" fn tillbonnet_reset(s: &mut [u64], q: usize, first: &mut usize) -> u32
    ensures { Recorded (call_reset q) s.old first.old result s.new first.new }
{
    first_of(partner::calls::reset(s, q), first)
}

#[unsafe(no_mangle)]
pub extern "C" fn tillbonnet_ccx(
    s: &mut [u64],
    a: usize,
    b: usize,
    t: usize,
    first: &mut usize,
) -> u32
    ensures { Recorded (call_ccx a b t) s.old first.old result s.new first.new }
{
    first_of(partner::calls::ccx(s, a, b, t), first)
}

#[unsafe(no_mangle)]
pub extern "C" fn tillbonnet_ccz(
    s: &mut [u64],
    a: usize,
    b: usize,
    t: usize,
    first: &mut usize,
) -> u32
    ensures { Recorded (call_ccz a b t) s.old first.old result s.new first.new }
{
    first_of(partner::calls::ccz(s, a, b, t), first)
}

#[unsafe(no_mangle)]
pub extern "C" fn tillbonnet_kill(s: &mut [u64], id: usize) -> u32
    ensures { Done (call_kill id) s.old result s.new }
{
    number_of(partner::calls::kill(s, id))
}

#[unsafe(no_mangle)]
pub extern "C" fn tillbonnet_clear(s: &mut [u64]) -> u32
    ensures { Done call_clear s.old result s.new }
{
    number_of(partner::calls::clear(s))
}

// ---- questions

// Three words of `says`: the tag, the sign, 1 if live else 0. Refuses with 3 where `says` has fewer.
#[unsafe(no_mangle)]
pub extern "C" fn tillbonnet_read(s: &[u64], id: usize, says: &mut [u64]) -> u32
    ensures { Lent 3 says.old (Asked (call_read id) s.now says.old result says.new) ((result ≡ 3) × (says.new ≡ says.old)) }
{
    if says.len() < 3 {
        return 3;
    }
    reading_into(partner::calls::read(s, id), says)
}

// Four words of `says`: 0 none, 1 found, 2 blocked, 3 out; the partner's number and the relative sign, or 0; the steps. Refuses with 3 where `says`
// has fewer.
#[unsafe(no_mangle)]
pub extern "C" fn tillbonnet_look(s: &[u64], kind: u64, q: usize, says: &mut [u64]) -> u32
    ensures { Lent 4 says.old (Named (named kinds kind) (λ (d : model.Kind). Asked (call_look d q) s.now says.old result says.new) ((result ≡ 10) × (says.new ≡ says.old))) ((result ≡ 3) × (says.new ≡ says.old)) }
{
    if says.len() < 4 {
        return 3;
    }
    match kind_named(kind) {
        Some(d) => sight_into(partner::calls::look(s, d, q), says),
        None => UNKNOWN,
    }
}
