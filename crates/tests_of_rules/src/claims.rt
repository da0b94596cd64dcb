use gt_claims::{Claim, Claims};
use gt_paths::Path;
use gt_types::{Act, Want};
use std::alloc::Global;
use std::test::Fail;

fn path(alloc: Global, text: &str) -> Result<Path, Fail> {
    Ok(Path::read(alloc, text, &Path::root(alloc))?)
}

// An act by its kind, and its paths after the collections of its task. A removal has its path on the destination.
#[derive(Clone, Copy)]
enum Row {
    Transfer(u32, &'static str, u32, &'static str),
    Erase(u32, u32, &'static str),
    RemoveFolder(u32, u32, &'static str),
}

use Row::{Erase, RemoveFolder, Transfer};

const PAIRS: [(Row, Row, bool); 16] = [
    // Other paths.
    (
        Transfer(0, "/a", 1, "/x"),
        Transfer(0, "/b", 1, "/y"),
        false,
    ),
    (
        Transfer(0, "/a", 1, "/x"),
        Transfer(0, "/b", 1, "/xy"),
        false,
    ),
    // Both read one path.
    (
        Transfer(0, "/a", 1, "/x"),
        Transfer(0, "/a", 1, "/y"),
        false,
    ),
    (
        Transfer(0, "/a", 1, "/x"),
        Transfer(0, "/a/b", 2, "/x"),
        false,
    ),
    // Both write one path, or one below the other.
    (Transfer(0, "/a", 1, "/x"), Transfer(0, "/b", 1, "/x"), true),
    (
        Transfer(0, "/a", 1, "/x"),
        Transfer(2, "/b", 1, "/x/z"),
        true,
    ),
    // One writes what the other reads.
    (
        Transfer(1, "/x", 0, "/y"),
        Transfer(0, "/e", 1, "/x/a"),
        true,
    ),
    (
        Transfer(1, "/x/a/b", 0, "/y"),
        Transfer(0, "/e", 1, "/x/a"),
        true,
    ),
    (
        Transfer(1, "/x", 0, "/y"),
        Transfer(0, "/e", 2, "/x/a"),
        false,
    ),
    // Removals write their path.
    (Erase(0, 0, "/a/b"), Transfer(0, "/a", 1, "/x"), true),
    (Erase(0, 1, "/a"), Transfer(0, "/a", 1, "/x"), false),
    (Erase(0, 1, "/x"), Transfer(0, "/a", 1, "/x"), true),
    (Erase(2, 2, "/x"), Transfer(0, "/a", 1, "/x"), false),
    (Erase(1, 1, "/r"), RemoveFolder(1, 1, "/"), true),
    (RemoveFolder(1, 1, "/d"), RemoveFolder(1, 1, "/e"), false),
    (RemoveFolder(1, 1, "/d/e"), Transfer(1, "/d", 0, "/y"), true),
];

// The claim that the row is.
fn claim(alloc: Global, row: Row) -> Result<Claim, Fail> {
    match row {
        Transfer(source, from, destination, to) => {
            let act = Act::Transfer {
                source: path(alloc, from)?,
                destination: path(alloc, to)?,
                want: Want::Either,
            };
            Ok(Claim::of(alloc, &act, source, destination)?)
        }
        Erase(source, destination, at) => {
            let act = Act::Erase {
                path: path(alloc, at)?,
                want: Want::Either,
            };
            Ok(Claim::of(alloc, &act, source, destination)?)
        }
        RemoveFolder(source, destination, at) => {
            let act = Act::RemoveFolder {
                path: path(alloc, at)?,
            };
            Ok(Claim::of(alloc, &act, source, destination)?)
        }
    }
}

// Whether the second act is in conflict with the first, where the first is claimed.
fn meets(alloc: Global, claimed: Row, asked: Row) -> Result<bool, Fail> {
    let mut claims = Claims::new(alloc);
    claims.reserve(1)?;
    claims.put(4, claim(alloc, claimed)?);
    let asked = claim(alloc, asked)?;
    Ok(claims.conflict(&asked.act, asked.source, asked.destination) == Some(4))
}

#[test]
fn conflicts_of_pairs(rt: HostRuntime) -> Result<(), Fail> {
    let alloc = rt.alloc();
    for (place, (first, second, want)) in PAIRS.into_iter().enumerate() {
        assert_eq!(rt; meets(alloc, first, second)?, want, "{place}");
        assert_eq!(rt; meets(alloc, second, first)?, want, "{place} turned");
    }
    Ok(())
}

#[test]
fn least_item_in_conflict(rt: HostRuntime) -> Result<(), Fail> {
    let alloc = rt.alloc();
    let mut claims = Claims::new(alloc);
    let asked = claim(alloc, Transfer(0, "/a", 1, "/x"))?.act;
    assert_eq!(rt; claims.conflict(&asked, 0, 1), None);
    let paths = [(2, "/q"), (7, "/x/f"), (3, "/x/g"), (5, "/x/h")];
    for (item, at) in paths {
        claims.reserve(1)?;
        claims.put(item, claim(alloc, Erase(1, 1, at))?);
    }
    assert_eq!(rt; claims.conflict(&asked, 0, 1), Some(3));
    assert_eq!(rt; claims.conflict(&asked, 1, 0), None);
    claims.drop_item(3);
    assert_eq!(rt; claims.conflict(&asked, 0, 1), Some(5));
    claims.drop_item(9);
    assert_eq!(rt; claims.conflict(&asked, 0, 1), Some(5));

    // A second claim of an item takes the place of the first.
    claims.reserve(1)?;
    claims.put(5, claim(alloc, Erase(1, 1, "/z"))?);
    assert_eq!(rt; claims.conflict(&asked, 0, 1), Some(7));
    claims.drop_item(7);
    assert_eq!(rt; claims.conflict(&asked, 0, 1), None);
    Ok(())
}

const CLAIMED: [(u64, Row); 3] = [
    (9, Transfer(0, "/a", 1, "/x")),
    (4, Erase(0, 1, "/x/y")),
    (6, RemoveFolder(0, 1, "/d")),
];

// The collection, the path, and the least item that reads or writes a path there that overlaps with it.
const USERS: [(u32, &str, Option<u64>); 9] = [
    (0, "/a/b", Some(9)),
    (0, "/", Some(9)),
    (0, "/ab", None),
    (0, "/x", None),
    (1, "/x", Some(4)),
    (1, "/x/z", Some(9)),
    (1, "/d/e", Some(6)),
    (1, "/a", None),
    (2, "/a", None),
];

// Claims the item.
fn put(claims: &mut Claims, item: u64, claim: Claim) -> Result<(), Fail> {
    claims.reserve(1)?;
    claims.put(item, claim);
    Ok(())
}

fn user(alloc: Global, collection: u32, at: &str) -> Result<Option<u64>, Fail> {
    let mut claims = Claims::new(alloc);
    for (item, row) in CLAIMED {
        put(&mut claims, item, claim(alloc, row)?)?;
    }
    Ok(claims.user_of(collection, &path(alloc, at)?))
}

#[test]
fn least_user_of_a_path(rt: HostRuntime) -> Result<(), Fail> {
    for (collection, at, want) in USERS {
        let user = user(rt.alloc(), collection, at)?;
        assert_eq!(rt; user, want, "{at} of {collection}");
    }
    Ok(())
}
