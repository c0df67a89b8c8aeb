// The header and label lines: each must be the one that comes next, with numbers that this program takes.
ghost use Rattle.std.specs.Prelude.{◌+◌, ◌*◌, ◌≤◌, ◌<◌, ◌≡◌, [], ◌∷◌, ◌++◌, length, take};
ghost use Rattle.session.specs.Desk.{Takes, Within};

use super::stages::{MAX_EVENTS, MAX_QUBITS, Stage};
use text::lines::Line;

// The four words of a label go behind those of the qubits before it. They are four values, as the line has them.
fn put_label(labels: &mut [u64], q: usize, xh: u64, xl: u64, zh: u64, zl: u64)
    requires { (q < 32) × (length labels.old ≡ 128) }
    ensures { take (4 * (q + 1)) labels.new ≡ take (4 * q) labels.old ++ (xh ∷ xl ∷ zh ∷ zl ∷ []) }
{
    let at = 4 * q;
    labels[at] = xh;
    labels[at + 1] = xl;
    labels[at + 2] = zh;
    labels[at + 3] = zl;
}

// The stage that a line before the operations leads to, if it is the one that comes next and names no more than this program takes.
pub fn take_line(stage: Stage, l: Line, labels: &mut [u64]) -> Option<Stage>
    requires { Within stage × (length labels.old ≡ 128) }
    ensures { Takes stage labels.old l result labels.new }
{
    match (stage, l) {
        (Stage::Qubits, Line::Qubits(n)) if n <= MAX_QUBITS as u64 => Some(Stage::Form {
            n: n as usize,
        }),
        (Stage::Form { n }, Line::Form(form)) => Some(Stage::Events { n, form }),
        (Stage::Events { n, form }, Line::Events(events)) if events <= MAX_EVENTS as u64 => Some(
            Stage::Steps {
                n,
                form,
                events: events as usize,
            },
        ),
        (Stage::Steps { n, form, events }, Line::Steps(steps)) => Some(Stage::Labels {
            n,
            form,
            events,
            steps,
            q: 0,
        }),
        (
            Stage::Labels {
                n,
                form,
                events,
                steps,
                q,
            },
            Line::Label {
                q: j,
                xh,
                xl,
                zh,
                zl,
            },
        ) if j == q as u64 => {
            put_label(labels, q, xh, xl, zh, zl);
            Some(Stage::Labels {
                n,
                form,
                events,
                steps,
                q: q + 1,
            })
        }
        _ => None,
    }
}
