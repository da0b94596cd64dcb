use gt_pauses::{PauseAct, PauseRow, Pauses};
use gt_types::PauseSpec;
use gt_values::{Id, Text};
use std::alloc::Global;
use std::test::Fail;

const ACTS: [PauseAct; 5] = [
    PauseAct::TransferRead,
    PauseAct::TransferWrite,
    PauseAct::Delete,
    PauseAct::Ls,
    PauseAct::Mkdir,
];

fn ann() -> Id {
    Id::from_bytes([0xa1; 16])
}

fn bob() -> Id {
    Id::from_bytes([0xb2; 16])
}

// A rule that pauses nothing.
fn rule(alloc: Global, collection: u32, identity: Option<Id>) -> Result<PauseSpec, Fail> {
    Ok(PauseSpec {
        collection,
        identity,
        message: Text::copy_of(alloc, "closed")?,
        transfer_read: false,
        transfer_write: false,
        delete: false,
        ls: false,
        mkdir: false,
        rename: false,
    })
}

// A rule that pauses transfers to the collection.
fn writes(alloc: Global, collection: u32, identity: Option<Id>) -> Result<PauseSpec, Fail> {
    Ok(PauseSpec {
        transfer_write: true,
        ..rule(alloc, collection, identity)?
    })
}

// The members of a rule, in the order of the acts.
type Members = (bool, bool, bool, bool, bool);

const MEMBERS: [Members; 6] = [
    (true, false, false, false, false),
    (false, true, false, false, false),
    (false, false, true, false, false),
    (false, false, false, true, false),
    (false, false, false, false, true),
    (false, false, false, false, false),
];

// A rule of these members for everybody, which is the first.
fn one_rule(alloc: Global, members: Members) -> Result<Pauses, Fail> {
    let mut pauses = Pauses::new(alloc);
    pauses.reserve(1)?;
    let (transfer_read, transfer_write, delete, ls, mkdir) = members;
    let spec = PauseSpec {
        transfer_read,
        transfer_write,
        delete,
        ls,
        mkdir,
        rename: true,
        ..rule(alloc, 0, None)?
    };
    pauses.add(spec, 1);
    Ok(pauses)
}

// Whether the rule of these members pauses the act of the place, and no other.
fn pauses_only(alloc: Global, members: Members, place: usize) -> Result<bool, Fail> {
    let pauses = one_rule(alloc, members)?;
    for (number, act) in ACTS.into_iter().enumerate() {
        let want = if number == place { Some(1) } else { None };
        if pauses.paused_at(2, &ann(), 0, act) != want {
            return Ok(false);
        }
    }
    Ok(true)
}

#[test]
fn each_member_pauses_its_act(rt: HostRuntime) -> Result<(), Fail> {
    for (place, members) in MEMBERS.into_iter().enumerate() {
        assert!(rt; pauses_only(rt.alloc(), members, place)?);
    }
    Ok(())
}

// Ends a live rule. Without one nothing is done.
fn end_live(pauses: &mut Pauses, number: u64, at: u64) {
    if pauses.live(number).is_some() {
        pauses.end(number, at);
    }
}

// Rules that pause transfers to a collection: the collection, whom, and the event of the making.
const RULES: [(u32, Option<u8>, u64); 4] = [
    (2, Some(0xb2), 3),
    (2, None, 5),
    (66, None, 6),
    (2, Some(0xa1), 7),
];

// Those rules, of which the first has ended at 9 and the second at 11.
fn four_rules(alloc: Global) -> Result<Pauses, Fail> {
    let mut pauses = Pauses::new(alloc);
    for (collection, identity, born) in RULES {
        let identity = identity.map(|byte| Id::from_bytes([byte; 16]));
        let spec = writes(alloc, collection, identity)?;
        pauses.reserve(1)?;
        pauses.add(spec, born);
    }
    end_live(&mut pauses, 1, 9);
    end_live(&mut pauses, 2, 11);
    Ok(pauses)
}

// The event, the identity, the collection, and the rule that pauses.
const WANTS: [(u64, u8, u32, Option<u64>); 15] = [
    (3, 0xb2, 2, None),
    (4, 0xb2, 2, Some(1)),
    (5, 0xb2, 2, Some(1)),
    (8, 0xb2, 2, Some(1)),
    (9, 0xb2, 2, Some(2)),
    (10, 0xb2, 2, Some(2)),
    (11, 0xb2, 2, None),
    (5, 0xa1, 2, None),
    (6, 0xa1, 2, Some(2)),
    (8, 0xa1, 2, Some(2)),
    (11, 0xa1, 2, Some(4)),
    (6, 0xb2, 66, None),
    (7, 0xb2, 66, Some(3)),
    (99, 0xa1, 66, Some(3)),
    (99, 0xa1, 1, None),
];

#[test]
fn pauses_by_event_number(rt: HostRuntime) -> Result<(), Fail> {
    let pauses = four_rules(rt.alloc())?;
    for (seq, byte, collection, want) in WANTS {
        let identity = Id::from_bytes([byte; 16]);
        let paused = |act| pauses.paused_at(seq, &identity, collection, act);
        assert!(rt; paused(PauseAct::TransferWrite) == want);
        assert!(rt; paused(PauseAct::TransferRead).is_none());
    }
    Ok(())
}

// Whether the rule of the number is live.
fn is_live(pauses: &Pauses, number: u64) -> bool {
    pauses.live(number).is_some()
}

#[test]
fn rules_by_number(rt: HostRuntime) -> Result<(), Fail> {
    let pauses = four_rules(rt.alloc())?;
    for (number, want) in [
        (0, false),
        (1, false),
        (2, false),
        (3, true),
        (4, true),
        (5, false),
    ] {
        assert!(rt; is_live(&pauses, number) == want);
    }
    if let Some(row) = pauses.live(3) {
        assert!(rt; row.number == 3 && row.spec.collection == 66);
        assert!(rt; row.spec.message.as_str() == "closed");
    }
    let rows = pauses.rows();
    assert!(rt; rows.len() == 4);
    assert!(rt; rows[0].ended == Some(9) && rows[3].ended.is_none());
    Ok(())
}

// The rule of the turn. Each combination of collection, identity and members comes again and again.
fn rule_of_turn(alloc: Global, turn: u32) -> Result<PauseSpec, Fail> {
    let identity = match turn % 7 {
        0 => Some(ann()),
        1 | 2 => None,
        _ => Some(bob()),
    };
    Ok(PauseSpec {
        transfer_read: turn % 2 == 0,
        transfer_write: turn % 3 == 0,
        delete: turn % 5 == 0,
        ls: turn % 11 == 0,
        mkdir: turn % 13 == 0,
        ..rule(alloc, turn % 4, identity)?
    })
}

// Adds the rule of the turn at the event 2 * turn + 1, and mostly ends it at the next.
fn take_turn(pauses: &mut Pauses, alloc: Global, turn: u32) -> Result<(), Fail> {
    let spec = rule_of_turn(alloc, turn)?;
    let born = u64::from(turn) * 2 + 1;
    pauses.reserve(1)?;
    let number = pauses.add(spec, born);
    if turn % 31 != 0 {
        end_live(pauses, number, born + 1);
    }
    Ok(())
}

fn after_turns(alloc: Global, turns: u32) -> Result<Pauses, Fail> {
    let mut pauses = Pauses::new(alloc);
    for turn in 0..turns {
        take_turn(&mut pauses, alloc, turn)?;
    }
    Ok(pauses)
}

fn has(rule: &PauseSpec, act: PauseAct) -> bool {
    match act {
        PauseAct::TransferRead => rule.transfer_read,
        PauseAct::TransferWrite => rule.transfer_write,
        PauseAct::Delete => rule.delete,
        PauseAct::Ls => rule.ls,
        PauseAct::Mkdir => rule.mkdir,
    }
}

fn counts(row: &PauseRow, seq: u64, identity: Id, collection: u32) -> bool {
    row.born < seq
        && row.ended.is_none_or(|ended| seq < ended)
        && row.spec.collection == collection
        && row.spec.identity.is_none_or(|id| id == identity)
}

// The first rule that pauses the act, by a walk over all rows.
fn walked(pauses: &Pauses, seq: u64, identity: Id, collection: u32, act: PauseAct) -> Option<u64> {
    for row in pauses.rows() {
        if counts(row, seq, identity, collection) && has(&row.spec, act) {
            return Some(row.number);
        }
    }
    None
}

// Whether the walk answers the same for each act.
fn agrees(pauses: &Pauses, seq: u64, identity: Id, collection: u32) -> bool {
    for act in ACTS {
        let paused = pauses.paused_at(seq, &identity, collection, act);
        if paused != walked(pauses, seq, identity, collection, act) {
            return false;
        }
    }
    true
}

// The event and the collection at which the walk says something else of the identity.
fn other_place(pauses: &Pauses, coming: u64, identity: Id) -> Option<(u64, u32)> {
    for seq in [coming, coming / 2, coming / 3] {
        for collection in 0..5 {
            if !agrees(pauses, seq, identity, collection) {
                return Some((seq, collection));
            }
        }
    }
    None
}

fn other_places(alloc: Global, turns: u32) -> Result<[Option<(u64, u32)>; 3], Fail> {
    let pauses = after_turns(alloc, turns)?;
    let coming = u64::from(turns) * 2 + 1;
    Ok([
        other_place(&pauses, coming, ann()),
        other_place(&pauses, coming, bob()),
        other_place(&pauses, coming, Id::from_bytes([0xc3; 16])),
    ])
}

#[test]
fn pauses_of_many_rows_are_those_of_a_walk(rt: HostRuntime) -> Result<(), Fail> {
    assert!(rt; other_places(rt.alloc(), 3_000)? == [None, None, None]);
    Ok(())
}
