// The lines of the input: each of the 26 shapes that 01 has is tried in turn, and the one that fits makes the line of its values.
ghost use Rattle.std.specs.Prelude.{◌≡◌, option_map};
ghost use Rattle.partner.specs.declared.calls.Call.TheVariants as call;
ghost use Rattle.text.specs.declared.lines.Line.TheVariants as line;
ghost use Rattle.text.specs.Line.{kind_numbered, header_rows, gate_rows, call_rows, look_rows, Reads, read_rows, reading_of};

use super::shapes::read_by;
use frame::axes::Kind;
use gating::gates::Gate;
use history::forms::Form;
use partner::calls::Call;

// A line has at most this many bytes.
pub const LINE_BYTES: usize = 80;

// A line of the input, by value: the four of the header, a label with the high and the low word of X and of Z, a call that writes, or a look.
#[derive(Clone, Copy, Debug, PartialEq, Eq)]
pub enum Line {
    Qubits(u64),
    Form(Form),
    Events(u64),
    Steps(u64),
    Label {
        q: u64,
        xh: u64,
        xl: u64,
        zh: u64,
        zl: u64,
    },
    Call(Call),
    Look {
        kind: Kind,
        q: usize,
    },
}

// The kind of a number below 4, as the letter's place gives it: in the language of shapes a kind is a value like each other. No `TryFrom`, since a larger number
// does not come.
#[tactic(auto, unfolding(crate::specs::Line::kind_numbered))]
fn kind_of(k: u64) -> Kind
    ensures { result ≡ kind_numbered k }
{
    match k {
        0 => Kind::X,
        1 => Kind::Y,
        2 => Kind::Z,
        _ => Kind::P,
    }
}

// ---- the lines by family, each the first of its shapes that fits: the header and the labels, a gate, another call, a look

#[tactic(auto, unfolding(crate::specs::Line::read_rows))]
fn read_header(s: &[u8]) -> Option<Line>
    ensures { result ≡ read_rows header_rows s.now }
{
    if let Some(f) = read_by(b"qubits=#", s) {
        return Some(Line::Qubits(f.e));
    }
    if read_by(b"form=scalar", s).is_some() {
        return Some(Line::Form(Form::Scalar));
    }
    if read_by(b"form=sliced", s).is_some() {
        return Some(Line::Form(Form::Sliced));
    }
    if let Some(f) = read_by(b"events=#", s) {
        return Some(Line::Events(f.e));
    }
    if let Some(f) = read_by(b"steps=#", s) {
        return Some(Line::Steps(f.e));
    }
    if let Some(f) = read_by(b"label=# x=%% z=%%", s) {
        return Some(Line::Label {
            q: f.a,
            xh: f.b,
            xl: f.c,
            zh: f.d,
            zl: f.e,
        });
    }
    None
}

// Of a gate on two qubits the first is the control.
#[tactic(auto, unfolding(crate::specs::Line::read_rows))]
fn read_gate(s: &[u8]) -> Option<Gate>
    ensures { option_map (λ g. line.Call (call.Gate g)) result ≡ read_rows gate_rows s.now }
{
    if let Some(f) = read_by(b"gate=h a=#", s) {
        return Some(Gate::H(f.e as usize));
    }
    if let Some(f) = read_by(b"gate=x a=#", s) {
        return Some(Gate::X(f.e as usize));
    }
    if let Some(f) = read_by(b"gate=y a=#", s) {
        return Some(Gate::Y(f.e as usize));
    }
    if let Some(f) = read_by(b"gate=z a=#", s) {
        return Some(Gate::Z(f.e as usize));
    }
    if let Some(f) = read_by(b"gate=s a=#", s) {
        return Some(Gate::S(f.e as usize));
    }
    if let Some(f) = read_by(b"gate=sdg a=#", s) {
        return Some(Gate::Sdg(f.e as usize));
    }
    if let Some(f) = read_by(b"gate=sx a=#", s) {
        return Some(Gate::Sx(f.e as usize));
    }
    if let Some(f) = read_by(b"gate=cnot a=# b=#", s) {
        return Some(Gate::Cnot(f.d as usize, f.e as usize));
    }
    if let Some(f) = read_by(b"gate=cz a=# b=#", s) {
        return Some(Gate::Cz(f.d as usize, f.e as usize));
    }
    if let Some(f) = read_by(b"gate=cy a=# b=#", s) {
        return Some(Gate::Cy(f.d as usize, f.e as usize));
    }
    if let Some(f) = read_by(b"gate=swap a=# b=#", s) {
        return Some(Gate::Swap(f.d as usize, f.e as usize));
    }
    None
}

#[tactic(auto, unfolding(crate::specs::Line::read_rows))]
fn read_call(s: &[u8]) -> Option<Call>
    ensures { option_map line.Call result ≡ read_rows call_rows s.now }
{
    if let Some(f) = read_by(b"turn=# kind=? a=#", s) {
        return Some(Call::Turn {
            kind: kind_of(f.d),
            k: f.c,
            q: f.e as usize,
        });
    }
    if let Some(f) = read_by(b"record=? a=# tag=$", s) {
        return Some(Call::Record {
            kind: kind_of(f.c),
            q: f.d as usize,
            tag: f.e as u32,
        });
    }
    if let Some(f) = read_by(b"measure=#", s) {
        return Some(Call::Measure(f.e as usize));
    }
    if let Some(f) = read_by(b"reset=#", s) {
        return Some(Call::Reset(f.e as usize));
    }
    if let Some(f) = read_by(b"ccx=# b=# c=#", s) {
        return Some(Call::Ccx(f.c as usize, f.d as usize, f.e as usize));
    }
    if let Some(f) = read_by(b"ccz=# b=# c=#", s) {
        return Some(Call::Ccz(f.c as usize, f.d as usize, f.e as usize));
    }
    if let Some(f) = read_by(b"kill=#", s) {
        return Some(Call::Kill(f.e as usize));
    }
    if read_by(b"clear=all", s).is_some() {
        return Some(Call::Clear);
    }
    None
}

#[tactic(auto, unfolding(crate::specs::Line::read_rows))]
fn read_look(s: &[u8]) -> Option<Line>
    ensures { result ≡ read_rows look_rows s.now }
{
    let f = read_by(b"look=? a=#", s)?;
    Some(Line::Look {
        kind: kind_of(f.d),
        q: f.e as usize,
    })
}

// Reads a line, given without its newline.
#[tactic(auto, using(crate::proofs::Unique::readings))]
pub fn read_line(s: &[u8]) -> Option<Line>
    ensures reads { Reads s.now result }
    ensures is { result ≡ reading_of s.now }
{
    if s.len() > LINE_BYTES {
        return None;
    }
    if let Some(l) = read_header(s) {
        return Some(l);
    }
    if let Some(g) = read_gate(s) {
        return Some(Line::Call(Call::Gate(g)));
    }
    if let Some(c) = read_call(s) {
        return Some(Line::Call(c));
    }
    read_look(s)
}
