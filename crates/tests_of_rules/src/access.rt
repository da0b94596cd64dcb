use gt_access::{AccessRow, Right, Rules};
use gt_paths::Path;
use gt_types::{AccessSpec, Principal, Who};
use gt_values::{Id, Sequence};
use std::alloc::Global;
use std::test::Fail;

fn ann() -> Id {
    Id::from_bytes([0xa1; 16])
}

fn bob() -> Id {
    Id::from_bytes([0xb2; 16])
}

fn group() -> Id {
    Id::from_bytes([0xd3; 16])
}

fn path(alloc: Global, text: &str) -> Result<Path, Fail> {
    Ok(Path::read(alloc, text, &Path::root(alloc))?)
}

fn spec(alloc: Global, principal: Principal, text: &str, write: bool) -> Result<AccessSpec, Fail> {
    Ok(AccessSpec {
        principal,
        path: path(alloc, text)?,
        write,
    })
}

// A caller in the group.
fn member(alloc: Global, identity: Id) -> Result<Who, Fail> {
    Ok(Who {
        identity,
        groups: Sequence::from_vec(vec![in alloc; group()]?),
    })
}

/// Whom a rule names.
#[derive(Clone, Copy)]
enum Named {
    Ann,
    Bob,
    Other,
    Group,
    OtherGroup,
    Everybody,
    Anybody,
}

fn principal_of(named: Named) -> Principal {
    match named {
        Named::Ann => Principal::Identity(ann()),
        Named::Bob => Principal::Identity(bob()),
        Named::Other => Principal::Identity(group()),
        Named::Group => Principal::Group(group()),
        Named::OtherGroup => Principal::Group(ann()),
        Named::Everybody => Principal::AllAuthenticated,
        Named::Anybody => Principal::Anonymous,
    }
}

/// A change of the rules: one for a path of a collection that may permit writing, made at an event, the same rule with
/// another permission, or the end of the rule of a number.
#[derive(Clone, Copy)]
enum Change {
    Add(u32, Named, &'static str, bool, u64),
    Replace(u64, Named, &'static str, bool, u64),
    End(u64, u64),
}

// Ends a live rule. Without one nothing is done.
fn end_live(rules: &mut Rules, number: u64, at: u64) {
    if rules.live(number).is_some() {
        rules.end(number, at);
    }
}

fn add_rule(rules: &mut Rules, collection: u32, spec: AccessSpec, born: u64) -> Result<u64, Fail> {
    rules.reserve(1)?;
    Ok(rules.add(collection, spec, born))
}

// Replaces a live rule. Without one nothing is done.
fn replace_live(rules: &mut Rules, number: u64, spec: AccessSpec, at: u64) -> Result<(), Fail> {
    rules.reserve(1)?;
    if rules.live(number).is_some() {
        rules.replace(number, spec, at);
    }
    Ok(())
}

fn make_change(rules: &mut Rules, alloc: Global, change: Change) -> Result<(), Fail> {
    match change {
        Change::Add(collection, named, text, write, born) => {
            let spec = spec(alloc, principal_of(named), text, write)?;
            add_rule(rules, collection, spec, born)?;
            Ok(())
        }
        Change::Replace(number, named, text, write, at) => {
            let spec = spec(alloc, principal_of(named), text, write)?;
            replace_live(rules, number, spec, at)
        }
        Change::End(number, at) => {
            end_live(rules, number, at);
            Ok(())
        }
    }
}

fn changed(alloc: Global, changes: &[Change]) -> Result<Rules, Fail> {
    let mut rules = Rules::new(alloc);
    for step in changes {
        make_change(&mut rules, alloc, *step)?;
    }
    Ok(rules)
}

// What a caller in the group may do at an event with a path of a collection behind these changes. The collection is bob's.
fn right_behind(
    alloc: Global,
    changes: &[Change],
    identity: Id,
    seq: u64,
    collection: u32,
    text: &str,
) -> Result<Right, Fail> {
    let rules = changed(alloc, changes)?;
    let who = member(alloc, identity)?;
    Ok(rules.right_at(seq, &who, collection, &bob(), &path(alloc, text)?))
}

// Whether there is a live rule of this principal for this path behind these changes.
fn is_live(alloc: Global, changes: &[Change], named: Named, text: &str) -> Result<bool, Fail> {
    Ok(changed(alloc, changes)?.same(0, &spec(alloc, principal_of(named), text, true)?))
}

// Whether the rule of this number is live behind these changes.
fn has_live(alloc: Global, changes: &[Change], number: u64) -> Result<bool, Fail> {
    Ok(changed(alloc, changes)?.live(number).is_some())
}

// How many rows there are behind these changes, and the number of the newest.
fn newest(alloc: Global, changes: &[Change]) -> Result<(usize, u64), Fail> {
    let rules = changed(alloc, changes)?;
    let last = rules.rows().last().map_or(0, |row| row.number);
    Ok((rules.rows().len(), last))
}

// Two rules, of which the one for the longer path ends.
const NESTED: [Change; 3] = [
    Change::Add(2, Named::Ann, "/p/", true, 1),
    Change::Add(2, Named::Ann, "/p/q/", false, 2),
    Change::End(2, 3),
];

// Who asks, by the byte of which the identity is made, at which event, for which path of the collection 2, and the right.
const NESTED_RIGHTS: [(u8, u64, &str, Right); 8] = [
    (0xa1, 3, "/p/q/f", Right::Read),
    (0xa1, 3, "/p/f", Right::Write),
    (0xa1, 3, "/z", Right::Nothing),
    (0xa1, 2, "/p/q/f", Right::Write),
    (0xa1, 1, "/p/f", Right::Nothing),
    // The owner.
    (0xb2, 1, "/", Right::Write),
    (0xb2, 1, "/p/q/f", Right::Write),
    (0xb2, 1, "/z", Right::Write),
];

#[test]
fn rights_by_event_number(rt: HostRuntime) -> Result<(), Fail> {
    let alloc = rt.alloc();
    for (byte, seq, text, right) in NESTED_RIGHTS {
        let identity = Id::from_bytes([byte; 16]);
        assert!(rt; right_behind(alloc, &NESTED[..2], identity, seq, 2, text)? == right);
    }
    // Another collection.
    let other = right_behind(alloc, &NESTED[..2], ann(), 3, 66, "/p/f")?;
    assert!(rt; other == Right::Nothing);
    for seq in [4, 3] {
        let right = right_behind(alloc, &NESTED, ann(), seq, 2, "/p/q/f")?;
        assert!(rt; right == Right::Write);
    }
    assert!(rt; has_live(alloc, &NESTED[..2], 2)?);
    assert!(rt; !has_live(alloc, &NESTED, 2)?);
    Ok(())
}

#[test]
fn groups_and_everybody(rt: HostRuntime) -> Result<(), Fail> {
    for (named, right) in [
        (Named::Group, Right::Read),
        (Named::OtherGroup, Right::Nothing),
        (Named::Everybody, Right::Read),
        (Named::Anybody, Right::Read),
        (Named::Bob, Right::Nothing),
    ] {
        let changes = [Change::Add(0, named, "/", false, 1)];
        let found = right_behind(rt.alloc(), &changes, ann(), 2, 0, "/")?;
        assert!(rt; found == right);
    }
    Ok(())
}

// A rule is replaced, and then another comes.
const REPLACED: [Change; 3] = [
    Change::Add(0, Named::Anybody, "/a", false, 1),
    Change::Replace(1, Named::Anybody, "/a", true, 2),
    Change::Add(1, Named::Anybody, "/a", false, 3),
];

#[test]
fn replaced_rule_keeps_its_number(rt: HostRuntime) -> Result<(), Fail> {
    let alloc = rt.alloc();
    for (made, rows) in [(1, (1, 1)), (2, (2, 1)), (3, (3, 2))] {
        assert!(rt; newest(alloc, &REPLACED[..made])? == rows);
    }
    for (seq, right) in [(3, Right::Write), (2, Right::Nothing)] {
        let found = right_behind(alloc, &REPLACED[..2], ann(), seq, 0, "/a")?;
        assert!(rt; found == right);
    }
    assert!(rt; is_live(alloc, &REPLACED[..2], Named::Anybody, "/a")?);
    assert!(rt; !is_live(alloc, &REPLACED[..2], Named::Anybody, "/b")?);
    Ok(())
}

// Four rules for one path, of which the first and the last have ended, and then the second.
const OVERLAPPING: [Change; 7] = [
    Change::Add(0, Named::Ann, "/p", false, 1),
    Change::End(1, 2),
    Change::Add(0, Named::Ann, "/p", true, 3),
    Change::Add(0, Named::Ann, "/p", false, 4),
    Change::Add(0, Named::Everybody, "/p", true, 5),
    Change::End(4, 6),
    Change::End(2, 7),
];

// How many changes were made, the event, and the right.
const RIGHTS: [(usize, u64, Right); 7] = [
    (6, 2, Right::Nothing),
    (6, 3, Right::Nothing),
    (6, 4, Right::Write),
    (6, 7, Right::Write),
    (7, 6, Right::Write),
    (7, 7, Right::Read),
    (7, 8, Right::Read),
];

#[test]
fn rules_of_one_path_that_overlap(rt: HostRuntime) -> Result<(), Fail> {
    for (made, seq, right) in RIGHTS {
        let changes = &OVERLAPPING[..made.min(7)];
        let found = right_behind(rt.alloc(), changes, ann(), seq, 0, "/p/f")?;
        assert!(rt; found == right);
    }
    assert!(rt; is_live(rt.alloc(), &OVERLAPPING, Named::Ann, "/p")?);
    assert!(rt; !is_live(rt.alloc(), &OVERLAPPING, Named::Everybody, "/p")?);
    Ok(())
}

const ALL_NAMED: [Named; 7] = [
    Named::Ann,
    Named::Bob,
    Named::Other,
    Named::Group,
    Named::OtherGroup,
    Named::Everybody,
    Named::Anybody,
];

const PATHS: [&str; 8] = ["/", "/a", "/a/b", "/a/b/c", "/a/b/d", "/a/e", "/f", "/f/g"];

// Adds the rule of the turn at the event 2 * turn + 1, and mostly ends it at the next.
fn turn_rule(rules: &mut Rules, alloc: Global, turn: u32) -> Result<(), Fail> {
    let named = ALL_NAMED[turn as usize % 7];
    let text = PATHS[turn as usize % 8];
    let spec = spec(alloc, principal_of(named), text, turn % 5 < 2)?;
    let born = u64::from(turn) * 2 + 1;
    let number = add_rule(rules, turn % 3, spec, born)?;
    if turn % 11 != 0 {
        end_live(rules, number, born + 1);
    }
    Ok(())
}

// Whether the rule names a member of the group.
fn names_ann(principal: Principal) -> bool {
    match principal {
        Principal::Identity(id) => id == ann(),
        Principal::Group(id) => id == group(),
        Principal::AllAuthenticated | Principal::Anonymous => true,
    }
}

fn counts(row: &AccessRow, seq: u64, collection: u32, path: &Path) -> bool {
    row.born < seq
        && row.ended.is_none_or(|ended| seq < ended)
        && row.collection == collection
        && names_ann(row.spec.principal)
        && path.is_under(&row.spec.path)
}

// The longest path and the greatest right of those that count, by a walk over all rows.
fn walked(rules: &Rules, seq: u64, collection: u32, path: &Path) -> Right {
    let mut longest = 0;
    let mut right = Right::Nothing;
    for row in rules.rows() {
        let own = if row.spec.write {
            Right::Write
        } else {
            Right::Read
        };
        let names = row.spec.path.names();
        let is_next = names > longest || right == Right::Nothing;
        if counts(row, seq, collection, path) && (is_next || names == longest && own > right) {
            longest = names;
            right = own;
        }
    }
    right
}

// Whether the walk answers the same on each collection.
fn agrees(rules: &Rules, who: &Who, seq: u64, path: &Path) -> bool {
    for collection in 0..4 {
        let right = rules.right_at(seq, who, collection, &bob(), path);
        if right != walked(rules, seq, collection, path) {
            return false;
        }
    }
    true
}

fn turned(alloc: Global, turns: u32) -> Result<Rules, Fail> {
    let mut rules = Rules::new(alloc);
    for turn in 0..turns {
        turn_rule(&mut rules, alloc, turn)?;
    }
    Ok(rules)
}

const ASKED: [&str; 7] = ["/", "/a/b/c/x", "/a/b/d", "/a/e", "/a/z", "/f/g/h", "/q"];

// The path of which the walk over the rules of so many turns says something else, at the coming event or at an old one.
fn other_path(alloc: Global, turns: u32) -> Result<Option<&'static str>, Fail> {
    let rules = turned(alloc, turns)?;
    let who = member(alloc, ann())?;
    let coming = u64::from(turns) * 2 + 1;
    for text in ASKED {
        let path = path(alloc, text)?;
        if !agrees(&rules, &who, coming, &path) || !agrees(&rules, &who, coming / 2, &path) {
            return Ok(Some(text));
        }
    }
    Ok(None)
}

#[test]
fn rights_of_many_rows_are_those_of_a_walk(rt: HostRuntime) -> Result<(), Fail> {
    assert!(rt; other_path(rt.alloc(), 3_000)?.is_none());
    Ok(())
}
