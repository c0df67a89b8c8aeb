// 01's proved cases 5 to 8 as calls of `frame`, on one qubit. Each check is proved from the contracts alone, and made once more when
// the program runs, which `rt ci` does. It prints nothing: a check that failed would stop it.
#![tactic(auto)]

ghost use Rattle.std.specs.Prelude.{◌≡◌};
ghost use Rattle.model.specs.Pauli.{Pauli};
ghost use Rattle.model.specs.Frame.{Rows};
ghost use Rattle.model.specs.Sketch.{Label};
ghost use Rattle.frame.specs.Places.{Sized, Held};
ghost use Rattle.frame.specs.Axes.{axis_of};
ghost use Rattle.cases.specs.Seen.{number_of, of_y};

use frame::axes::Basis;

// A sign as a number: 1 for +1, 2 for -1, 0 for none. `of_y` of specs/Seen and its theorems `case5_is` to `case8_is` speak of these numbers.
fn number(g: Option<i8>) -> u64
    ensures { result ≡ number_of g }
{
    match g {
        Some(1) => 1,
        Some(_) => 2,
        None => 0,
    }
}

// The sign of the row x[0] or z[0] as a number if the row is Y, else 3.
fn of_y(s: &[u64], basis: Basis) -> u64
    requires { Sized 2 1 s.now }
    ensures { (f : Rows Pauli) (k : Rows Label) → Held 1 1 f k s.now → result ≡ of_y (axis_of basis f 0) }
{
    let row = frame::axes::axis_row(s, 1, 1, basis, 0);
    if row[1] == 1 && row[2] == 1 {
        number(frame::axes::row_sign(row))
    } else {
        3
    }
}

// The fresh y axis has the sign +1.
fn case5() {
    let tags = [0u64; 4];
    let mut s = [0u64; 10];
    let mut y = [0u64; 3];
    frame::opening::fresh(&mut s, 1, 1, &tags);
    check::expect(frame::axes::y_product(&s, 1, 1, 0, &mut y).is_ok());
    check::expect(number(frame::axes::row_sign(&y)) == 1);
}

// After s the x axis is Y with the sign -1.
fn case6() {
    let tags = [0u64; 4];
    let mut s = [0u64; 10];
    frame::opening::fresh(&mut s, 1, 1, &tags);
    check::expect(frame::gates::gate_s(&mut s, 1, 1, 0).is_ok());
    check::expect(of_y(&s, Basis::X) == 2);
}

// After sdg it is Y with +1.
fn case7() {
    let tags = [0u64; 4];
    let mut s = [0u64; 10];
    frame::opening::fresh(&mut s, 1, 1, &tags);
    check::expect(frame::gates::gate_sdg(&mut s, 1, 1, 0).is_ok());
    check::expect(of_y(&s, Basis::X) == 1);
}

// After sx the z axis is Y with +1.
fn case8() {
    let tags = [0u64; 4];
    let mut s = [0u64; 10];
    frame::opening::fresh(&mut s, 1, 1, &tags);
    check::expect(frame::gates::gate_sx(&mut s, 1, 1, 0).is_ok());
    check::expect(of_y(&s, Basis::Z) == 1);
}

fn main() {
    case5();
    case6();
    case7();
    case8();
}
