ghost use Rattle.std.specs.Prelude.{IfOk};
ghost use Rattle.gt_machine.specs.Run.{IsReached};

use gt_machine::{Decision, PlanFault, State, empty_states_are_reached};
use gt_paths::Path;
use gt_setup::Setup;
use gt_types::{
    AccessSpec, Command, Event, Happening, Kept, Principal, Reply, TransferEntry, TransferSpec, Who,
};
use gt_values::{Id, Moment, Sequence};
use std::alloc::{AllocError, Global};
use std::test::Fail;

pub(crate) const ANN: u8 = 0xa1;

pub(crate) const BOB: u8 = 0xb2;

// Two identities and three collections, of which the last is Bob's.
pub(crate) const SETUP: &[u8] = b"namespace = 7
identity = [
{ id = \"00000000-0000-4000-8000-0000000000a1\", name = \"ann\", tokens = [], groups = [] },
{ id = \"00000000-0000-4000-8000-0000000000b2\", name = \"bob\", tokens = [], groups = [] },
]
collection = [
{ id = \"00000000-0000-4000-8000-0000000000c0\", name = \"Lab\", owner = \"00000000-0000-4000-8000-0000000000a1\", home = \"/\" },
{ id = \"00000000-0000-4000-8000-0000000000c1\", name = \"Store\", owner = \"00000000-0000-4000-8000-0000000000a1\", home = \"/\" },
{ id = \"00000000-0000-4000-8000-0000000000c2\", name = \"Vault\", owner = \"00000000-0000-4000-8000-0000000000b2\", home = \"/\" },
]
";

// An event by its numbers: a submission has this owner, this identifier and so many entries.
#[derive(Clone, Copy)]
enum Step {
    Issue(u8),
    Submit(u8, u8, usize),
    AddRule,
    ReplaceRule,
    EndRule,
}

// Each has a step but those that say otherwise.
const STEPS: [Step; 10] = [
    Step::Issue(ANN),
    Step::Submit(ANN, 1, 1),
    Step::Submit(BOB, 1, 2),
    Step::Submit(ANN, 2, 10_000),
    Step::AddRule,
    Step::ReplaceRule,
    Step::EndRule,
    // An unknown identity, a repeat, and a rule that has ended.
    Step::Issue(9),
    Step::Submit(BOB, 1, 1),
    Step::EndRule,
];

pub(crate) fn id(last: u8) -> Id {
    Id::from_bytes([0, 0, 0, 0, 0, 0, 0x40, 0, 0x80, 0, 0, 0, 0, 0, 0, last])
}

fn path(alloc: Global) -> Result<Path, Fail> {
    Ok(Path::read(alloc, "/e", &Path::root(alloc))?)
}

// A transfer of one path, so many times, to the same place on the other collection.
pub(crate) fn transfer(alloc: Global, times: usize) -> Result<TransferSpec, Fail> {
    let mut entries = Vec::new(alloc);
    for _ in 0..times {
        entries.push(TransferEntry {
            source: path(alloc)?,
            destination: path(alloc)?,
            recursive: None,
        })?;
    }
    Ok(TransferSpec {
        source: 0,
        destination: 1,
        label: None,
        deadline: None,
        level: None,
        verify: true,
        preserve: false,
        extra: false,
        skip_source: false,
        kept: Kept { given: 0, set: 0 },
        rules: Sequence::new(alloc),
        entries: Sequence::from_vec(entries),
    })
}

fn happening(alloc: Global, step: Step) -> Result<Happening, Fail> {
    Ok(match step {
        Step::Issue(identity) => Happening::Issue {
            identity: id(identity),
        },
        Step::Submit(owner, submission, times) => Happening::SubmitTransfer {
            owner: id(owner),
            submission: id(submission),
            spec: transfer(alloc, times)?,
        },
        Step::AddRule => Happening::AccessAdd {
            collection: 1,
            spec: AccessSpec {
                principal: Principal::Identity(id(BOB)),
                path: path(alloc)?,
                write: false,
            },
        },
        Step::ReplaceRule => Happening::AccessReplace {
            rule: 1,
            write: true,
        },
        Step::EndRule => Happening::AccessEnd { rule: 1 },
    })
}

// Makes the step's event at the moment 120, and says whether it has a step.
fn comes(alloc: Global, state: &mut State, setup: &Setup, step: Step) -> Result<bool, Fail>
    requires { IsReached setup.now state.old.machine }
    ensures { IsReached setup.now state.new.machine }
{
    let moment = Moment::of(120).ok_or("a moment")?;
    let what = happening(alloc, step)?;
    if state.events() >= 1 << 62 {
        return Err(Fail::from("few events"));
    }
    match state.take_event(alloc, setup, Event { moment, what }) {
        Ok(()) => Ok(true),
        Err(PlanFault::NoStep) => Ok(false),
        Err(PlanFault::OutOfMemory) => Err(Fail::from(AllocError)),
    }
}

// The state after these steps' events.
fn state_after(alloc: Global, setup: &Setup, steps: &[Step]) -> Result<State, Fail>
    ensures { IfOk result (λ state. IsReached setup.now state.machine) }
{
    empty_states_are_reached();
    let mut state = State::new(alloc, setup.namespace());
    for step in steps {
        let _ = comes(alloc, &mut state, setup, *step)?;
    }
    Ok(state)
}

// The counts of a state.
#[derive(Clone, Copy, Debug, PartialEq)]
struct Counts {
    events: u64,
    greatest: u64,
    rows_of_rules: usize,
    tasks: usize,
    items: usize,
    lines: usize,
    items_of_last: u64,
}

fn counts_after(alloc: Global, steps: &[Step]) -> Result<Counts, Fail> {
    let setup = Setup::read(alloc, SETUP)?;
    let state = state_after(alloc, &setup, steps)?;
    let lines = state.task_lines(alloc)?;
    let last = lines.last().ok_or("a task")?;
    Ok(Counts {
        events: state.events(),
        greatest: state.greatest().seconds(),
        rows_of_rules: state.rules().rows().len(),
        tasks: state.tasks().rows().len(),
        items: state.items().rows().len(),
        lines: lines.len(),
        items_of_last: last.counters.total,
    })
}

// With ample memory each event that has a step makes it, and each other changes nothing.
#[test]
fn events_make_their_steps(rt: HostRuntime) -> Result<(), Fail> {
    let counts = counts_after(rt.alloc(), &STEPS)?;
    let want = Counts {
        events: 7,
        greatest: 120,
        rows_of_rules: 2,
        tasks: 3,
        items: 10_003,
        lines: 3,
        items_of_last: 10_000,
    };
    assert_eq!(rt; counts, want);
    Ok(())
}

// The moment of the event that is made for one who asks for an identifier at this moment, and the number.
fn asks(alloc: Global, state: &State, setup: &Setup, seconds: u64) -> Result<(u64, u64), Fail>
    requires { IsReached setup.now state.now.machine }
{
    let now = Moment::of(seconds).ok_or("a moment")?;
    if state.events() >= 1 << 62 {
        return Err(Fail::from("few events"));
    }
    let who = Who {
        identity: id(ANN),
        groups: Sequence::new(alloc),
    };
    if setup.who(&who.identity).is_none() {
        return Err(Fail::from("no caller"));
    }
    match state.decide(alloc, setup, &who, &Command::IssueId, now)? {
        Decision::Do(event, reply) => match reply {
            Reply::Identifier { number } => Ok((event.moment.seconds(), number)),
            _ => Err(Fail::from("another reply")),
        },
        Decision::Say(_) => Err(Fail::from("no event")),
    }
}

fn asked_after(alloc: Global, steps: &[Step], seconds: u64) -> Result<(u64, u64), Fail> {
    let setup = Setup::read(alloc, SETUP)?;
    let state = state_after(alloc, &setup, steps)?;
    asks(alloc, &state, &setup, seconds)
}

// An identifier that is asked for has the next number, and its event's moment is at least the greatest so far.
#[test]
fn identifiers_are_answered_in_order(rt: HostRuntime) -> Result<(), Fail> {
    let alloc = rt.alloc();
    assert_eq!(rt; asked_after(alloc, &[], 100)?, (100, 1));
    assert_eq!(rt; asked_after(alloc, &STEPS[..1], 119)?, (120, 2));
    assert_eq!(rt; asked_after(alloc, &STEPS[..1], 121)?, (121, 2));
    Ok(())
}
