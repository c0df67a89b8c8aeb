// Which gate, kind or form a number names (specs/Numbers.antt). Functions and no `TryFrom`: the numbers are the C interface's alone, and a gate has two qubits
// besides.
ghost use Rattle.std.specs.Prelude.{◌≡◌};
ghost use Rattle.host.specs.Numbers.{named, gates, kinds, forms};
ghost use Rattle.host.specs.Named.{gate_named, kind_named, form_named};

use frame::axes::Kind;
use gating::gates::Gate;
use history::forms::Form;

#[tactic(auto, unfolding(crate::specs::Numbers::named, crate::specs::Named::gate_named, gating::specs::Gates::gate_of))]
pub fn gate_named(g: u64, a: usize, b: usize) -> Option<Gate>
    ensures { gate_named result ≡ named (gates a b) g }
{
    let gate = match g {
        0 => Gate::H(a),
        1 => Gate::X(a),
        2 => Gate::Y(a),
        3 => Gate::Z(a),
        4 => Gate::S(a),
        5 => Gate::Sdg(a),
        6 => Gate::Sx(a),
        7 => Gate::Cnot(a, b),
        8 => Gate::Cz(a, b),
        9 => Gate::Cy(a, b),
        10 => Gate::Swap(a, b),
        _ => return None,
    };
    Some(gate)
}

#[tactic(auto, unfolding(crate::specs::Numbers::named, crate::specs::Named::kind_named, frame::specs::Axes::kind_of))]
pub fn kind_named(kind: u64) -> Option<Kind>
    ensures { kind_named result ≡ named kinds kind }
{
    match kind {
        0 => Some(Kind::X),
        1 => Some(Kind::Y),
        2 => Some(Kind::Z),
        3 => Some(Kind::P),
        _ => None,
    }
}

#[tactic(auto, unfolding(crate::specs::Numbers::named, crate::specs::Named::form_named, history::specs::Sizes::form_of))]
pub fn form_named(form: u64) -> Option<Form>
    ensures { form_named result ≡ named forms form }
{
    match form {
        0 => Some(Form::Scalar),
        1 => Some(Form::Sliced),
        _ => None,
    }
}
