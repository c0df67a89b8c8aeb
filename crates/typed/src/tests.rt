// Each call once, with the rule book's values: its worked example (examples/worked.job), and its cases 6 and 11 as far as the calls go.
use crate::ids::EventId;
use crate::looks::{Found, Look};
use crate::refusals::Refusal;
use crate::stores::{Plan, Store, open};
use crate::turns::{NoSuchTurn, Turn};
use frame::axes::Kind;
use gating::gates::Gate;
use history::events::Rotation;
use history::forms::Form;
use store::refusals::OpenError;

const PLAN: Plan = Plan {
    qubits: 2,
    events: 8,
    steps: 1048576,
    form: Form::Scalar,
};

#[test]
fn worked_example(rt: HostRuntime) {
    let mut words = [7u64; 4763];
    open(&mut words, PLAN, &[0, 1, 0, 2, 0, 4, 0, 8]).expect(&rt, "an opening");
    let mut store = Store::new(&mut words);
    let first = EventId(0);
    assert_eq!(rt; store.record(Kind::Z, 0, 1), Ok(first));
    assert_eq!(rt; store.gate(Gate::Cnot(0, 1)), Ok(()));
    assert_eq!(rt;
        store.look(Kind::Z, 1),
        Ok(Look {
            found: Found::Nothing,
            steps: 0
        })
    );
    for gate in [Gate::X(1), Gate::Cnot(0, 1), Gate::X(0)] {
        assert_eq!(rt; store.gate(gate), Ok(()));
    }
    let found = Look {
        found: Found::Partner {
            id: first,
            sign: -1,
        },
        steps: 1,
    };
    assert_eq!(rt; store.look(Kind::Z, 0), Ok(found));
    let second = EventId(1);
    assert_eq!(rt; store.record(Kind::X, 0, 2), Ok(second));
    assert_eq!(rt;
        store.look(Kind::Z, 0),
        Ok(Look {
            found: Found::Blocked,
            steps: 2
        })
    );
    assert_eq!(rt; store.kill(second), Ok(()));
    assert_eq!(rt; store.look(Kind::Z, 0), Ok(found));
    let mut store = Store::new(store.into_words());
    store.clear();
    assert_eq!(rt;
        store.look(Kind::Z, 0),
        Ok(Look {
            found: Found::Nothing,
            steps: 0
        })
    );
    assert_eq!(rt;
        store.read(second),
        Ok(Rotation {
            tag: 2,
            sign: 1,
            live: false
        })
    );
    assert_eq!(rt; store.words().len(), 4763);
}

// Case 6: the turn by two eighths of kind z is s.
#[test]
fn turned(rt: HostRuntime) {
    let mut words = [7u64; 4763];
    let plan = Plan { qubits: 1, ..PLAN };
    open(&mut words, plan, &[0; 4]).expect(&rt, "an opening");
    let mut store = Store::new(&mut words);
    let first = EventId(0);
    assert_eq!(rt; store.record(Kind::Y, 0, 5), Ok(first));
    assert_eq!(rt; store.turn(Kind::Z, Turn::Quarter, 0), Ok(()));
    let found = Look {
        found: Found::Partner {
            id: first,
            sign: -1,
        },
        steps: 1,
    };
    assert_eq!(rt; store.look(Kind::X, 0), Ok(found));
    assert_eq!(rt; Turn::try_from(6), Ok(Turn::ThreeQuarters));
    assert_eq!(rt; Turn::try_from(1), Err(NoSuchTurn(1)));
    assert_eq!(rt; Turn::Half.eighths(), 4);
}

// Case 11, and the other calls that record blockers: how many each takes of the room.
#[test]
fn blockers(rt: HostRuntime) {
    let mut words = [7u64; 4763];
    let plan = Plan { qubits: 3, ..PLAN };
    open(&mut words, plan, &[0; 12]).expect(&rt, "an opening");
    let mut store = Store::new(&mut words);
    assert_eq!(rt; store.measure(0), Ok(EventId(0)));
    assert_eq!(rt; store.ccx(0, 1, 2), Ok(EventId(1)));
    assert_eq!(rt; store.measure(0), Err(Refusal::Full));
    open(&mut words, plan, &[0; 12]).expect(&rt, "an opening");
    let mut store = Store::new(&mut words);
    assert_eq!(rt; store.reset(0).map(|id| id.0), Ok(0));
    assert_eq!(rt; store.ccz(0, 1, 2), Err(Refusal::Full));
    assert_eq!(rt; store.kill(EventId(0)), Err(Refusal::NoSuchEvent));
    assert_eq!(rt; store.gate(Gate::H(3)).map_err(|e| e.code()), Err(4));
    assert_eq!(rt; store.gate(Gate::Cz(0, 0)), Err(Refusal::SameQubit));
    let plan = Plan { events: 7, ..plan };
    open(&mut words, plan, &[0; 12]).expect(&rt, "an opening");
    let mut store = Store::new(&mut words);
    assert_eq!(rt; store.ccz(0, 1, 2), Ok(EventId(0)));
    let none = Plan { qubits: 0, ..plan };
    assert_eq!(rt; open(&mut words, none, &[]), Err(OpenError::Sizes));
}
