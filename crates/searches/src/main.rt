// 01's proved cases 9, 10 and 12 run on the proved code of `history`, on one qubit. Each line says what the code answered, and the file
// `stdout` what 01 says: `rt ci` runs the program and compares the two. All events are rotations about Z0 with the label 0. The words are
// not zero at the start, and a later case finds those of an earlier one: a history that is opened relies on none of them.
#![tactic(auto)]

ghost use Rattle.std.specs.Prelude.{◌≡◌, ◌≤◌, length};
ghost use Rattle.history.specs.Sizes.{Fits};

use history::events::Body;
use history::findings::{Found, Look};
use history::forms::Form;
use history::kill::KillError;
use history::layout::Layout;
use pauli::corrupt::Corrupt;
use std::{fmt, io};

// What a look said, as a line shows it.
#[derive(Drop)]
struct Outcome(Result<Look, Corrupt>);

impl fmt::Display for Outcome {
    fn fmt<W: fmt::Write>(&self, f: &mut fmt::Formatter<W>) -> fmt::Result {
        let Ok(Look { found, steps }) = self.0 else {
            return f.write_str("bad");
        };
        match found {
            Found::Partner { id, .. } => write!(f, "found id={id} steps={steps}"),
            Found::Nothing => write!(f, "free steps={steps}"),
            Found::Blocked => write!(f, "blocked steps={steps}"),
            Found::OutOfSteps => write!(f, "out steps={steps}"),
        }
    }
}

fn name(form: Form) -> &'static str {
    match form {
        Form::Scalar => "scalar",
        Form::Sliced => "sliced",
    }
}

// Records a rotation about Z0, and gives its number.
fn rotate(h: &mut [u64], layout: &Layout) -> Result<usize, Corrupt>
    requires { Fits layout.now h.old × (layout.now.l ≡ 1) }
    ensures { length h.new ≡ length h.old }
{
    let body = Body::Rotation {
        tag: 1,
        sign: 1,
        high: 0,
        low: 0,
    };
    history::record::record(h, layout, &[0, 1], body)
}

// An empty history, and so many rotations about Z0. The answer is how many of them are kept with the next number.
fn filled(h: &mut [u64], layout: &Layout, many: usize) -> usize
    requires { Fits layout.now h.old × (layout.now.l ≡ 1) }
    ensures { length h.new ≡ length h.old }
{
    history::opening::fresh(h, layout);
    let mut kept = 0;
    for i in 0..many {
        if rotate(h, layout) == Ok(i) {
            kept += 1;
        }
    }
    kept
}

// So many rotations about Z0 and a look for Z0, with an allowance.
fn searched(
    rt: &impl Print,
    case: u32,
    h: &mut [u64],
    layout: &Layout,
    many: usize,
    allowance: u32,
) -> io::Result<()>
    requires { Fits layout.now h.old × (layout.now.l ≡ 1) }
    ensures { length h.new ≡ length h.old }
{
    let kept = filled(h, layout, many);
    let look = Outcome(history::looks::look(h, layout, &[0, 1], 1, 0, 0, allowance));
    let form = name(layout.form);
    println!(rt; "case={case} form={form} recorded={kept} allowance={allowance} look={look}")
}

// Kills a rotation of a scalar history of four, and writes the two counts of list 0, whose words are 35 and 36.
fn killed(rt: &impl Print, h: &mut [u64], layout: &Layout, kept: usize, id: usize) -> io::Result<()>
    requires { Fits layout.now h.old × (37 ≤ length h.old) }
    ensures { length h.new ≡ length h.old }
{
    let form = name(layout.form);
    print!(rt; "case=12 form={form} recorded={kept}")?;
    match history::kill::kill(h, layout, id) {
        Ok(()) => print!(rt; " killed={id}")?,
        Err(KillError::NoSuchEvent) => print!(rt; " refused")?,
        Err(KillError::Corrupt) => print!(rt; " bad")?,
    }
    let length = h[35];
    let dead = h[36];
    println!(rt; " length={length} dead={dead}")
}

fn main(rt: HostRuntime) -> io::Result<()> {
    let four = Layout {
        form: Form::Scalar,
        n: 1,
        l: 1,
        cap: 4,
    };
    let mut few = [7u64; 419];
    searched(&rt, 9, &mut few, &four, 1, 1)?;
    searched(&rt, 9, &mut few, &four, 1, 0)?;
    let block = Layout {
        form: Form::Sliced,
        n: 1,
        l: 1,
        cap: 64,
    };
    let mut many = [7u64; 584];
    searched(&rt, 9, &mut many, &block, 1, 1)?;
    searched(&rt, 10, &mut many, &block, 64, 1000)?;
    searched(&rt, 10, &mut many, &block, 63, 1000)?;
    let kept = filled(&mut few, &four, 4);
    killed(&rt, &mut few, &four, kept, 0)?;
    killed(&rt, &mut few, &four, kept, 1)
}
