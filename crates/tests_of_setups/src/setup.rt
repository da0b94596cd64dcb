// What no clause says: texts from outside, each getter once, and what a fault prints. Faults are compared as the lines they print.
use gt_paths::Path;
use gt_setup::{Setup, SetupFault};
use gt_values::Id;
use std::alloc::Global;
use std::test::Fail;

// A setup of two identities, whose tokens are `abc` and `hello`, and three collections.
const LINES: [&str; 26] = [
    "namespace = 7",
    "[[identity]]",
    "id = \"00000000-0000-4000-8000-0000000000a1\"",
    "name = \"ann\"",
    "tokens = [\"ba7816bf8f01cfea414140de5dae2223b00361a396177a9cb410ff61f20015ad\"]",
    "groups = []",
    "[[identity]]",
    "id = \"00000000-0000-4000-8000-0000000000b2\"",
    "name = \"bob\"",
    "tokens = [\"2cf24dba5fb0a30e26e83b2ac5b9e29e1b161e5c1fa7425e73043362938b9824\"]",
    "groups = [\"00000000000040008000000000000001\", \"{00000000-0000-4000-8000-000000000002}\"]",
    "[[collection]]",
    "id = \"00000000-0000-4000-8000-0000000000c0\"",
    "name = \"Lab\"",
    "owner = \"00000000-0000-4000-8000-0000000000a1\"",
    "home = \"/home/ann\"",
    "[[collection]]",
    "id = \"00000000-0000-4000-8000-0000000000c1\"",
    "name = \"Store\"",
    "owner = \"00000000-0000-4000-8000-0000000000a1\"",
    "home = \"/\"",
    "[[collection]]",
    "id = \"00000000-0000-4000-8000-0000000000c2\"",
    "name = \"Vault\"",
    "owner = \"00000000-0000-4000-8000-0000000000b2\"",
    "home = \"/\"",
];

// Further lines that stand in place of others in the tables below.
const ANN_AGAIN: &str = "id = \"00000000-0000-4000-8000-0000000000a1\"";

const LAB_AGAIN: &str = "id = \"00000000-0000-4000-8000-0000000000c0\"";

const NO_OWNER: &str = "owner = \"00000000-0000-4000-8000-0000000000c0\"";

const TOKEN_OF_ANN: &str =
    "tokens = [\"ba7816bf8f01cfea414140de5dae2223b00361a396177a9cb410ff61f20015ad\"]";

const TOKEN_IN_CAPITALS: &str =
    "tokens = [\"BA7816BF8F01CFEA414140DE5DAE2223B00361A396177A9CB410FF61F20015AD\"]";

const TOKEN_TWICE: &str =
    "tokens = [\"2cf24dba5fb0a30e26e83b2ac5b9e29e1b161e5c1fa7425e73043362938b9824\", \"2cf24dba5fb0a30e26e83b2ac5b9e29e1b161e5c1fa7425e73043362938b9824\"]";

// The lines, with others in two places; the same place twice is one.
fn edited(alloc: Global, first: (usize, &str), second: (usize, &str)) -> Result<String, Fail> {
    let mut text = String::new(alloc);
    for (at, line) in LINES.iter().enumerate() {
        let line = if at == first.0 {
            first.1
        } else if at == second.0 {
            second.1
        } else {
            *line
        };
        text.push_str(line)?;
        text.push('\n')?;
    }
    Ok(text)
}

// What the reading of a text prints: its fault, or `read`.
fn told(alloc: Global, text: &[u8]) -> Result<String, Fail> {
    match Setup::read(alloc, text) {
        Ok(_) => Ok(String::from_str(alloc, "read")?),
        Err(fault) => Ok(format!(in alloc; "{fault}")?),
    }
}

fn id(last: u8) -> Id {
    Id::from_bytes([0, 0, 0, 0, 0, 0, 0x40, 0, 0x80, 0, 0, 0, 0, 0, 0, last])
}

fn worked(alloc: Global) -> Result<Setup, Fail> {
    let whole = (0, LINES[0]);
    Ok(Setup::read(alloc, edited(alloc, whole, whole)?.as_bytes())?)
}

// The last byte of the identity that lists the token's digest, and how many groups it has.
fn owner_of_token(setup: &Setup, token: &str) -> Option<(u8, usize)> {
    setup
        .identity_of(token)
        .map(|who| (who.identity.as_bytes()[15], who.groups.len()))
}

#[test]
fn every_getter_answers(rt: HostRuntime) -> Result<(), Fail> {
    let alloc = rt.alloc();
    let setup = worked(alloc)?;
    assert_eq!(rt; setup.namespace(), 7);
    assert_eq!(rt; setup.collections(), 3);
    assert_eq!(rt; owner_of_token(&setup, "abc"), Some((0xa1, 0)));
    assert_eq!(rt; owner_of_token(&setup, "hello"), Some((0xb2, 2)));
    assert_eq!(rt; owner_of_token(&setup, "abd"), None);
    assert_eq!(rt; owner_of_token(&setup, ""), None);
    assert!(rt; setup.who(&id(0xb2)).is_some());
    assert!(rt; setup.who(&id(0xc0)).is_none());
    assert_eq!(rt; setup.collection_of(&id(0xc2)), Some(2));
    assert_eq!(rt; setup.collection_of(&id(0xa1)), None);
    Ok(())
}

#[test]
fn collections_are_told_by_number(rt: HostRuntime) -> Result<(), Fail> {
    let alloc = rt.alloc();
    let setup = worked(alloc)?;
    let rows = [
        (0_u32, 0xc0, "Lab", 0xa1, "/home/ann"),
        (1, 0xc1, "Store", 0xa1, "/"),
        (2, 0xc2, "Vault", 0xb2, "/"),
    ];
    for (number, own, name, owner, home) in rows {
        if number < setup.collections() {
            assert_eq!(rt; setup.id_of(number), id(own));
            assert_eq!(rt; setup.name_of(number), name);
            assert_eq!(rt; setup.owner_of(number), id(owner));
            let home = Path::read(alloc, home, &Path::root(alloc))?;
            assert_eq!(rt; *setup.home_of(number), home);
        }
    }
    Ok(())
}

#[test]
fn the_first_fault_is_told(rt: HostRuntime) -> Result<(), Fail> {
    let alloc = rt.alloc();
    // Two lines that stand in other places, and what is told.
    let cases = [
        (
            (0, ""),
            (0, ""),
            "setup file, key `namespace`, row 0: missing",
        ),
        (
            (2, ""),
            (2, ""),
            "setup file, key `identity.id`, row 0: missing",
        ),
        (
            (10, ""),
            (10, ""),
            "setup file, key `identity.groups`, row 1: missing",
        ),
        (
            (25, ""),
            (25, ""),
            "setup file, key `collection.home`, row 2: missing",
        ),
        // A value that is not allowed, and behind it a missing key.
        (
            (0, "namespace = -1"),
            (2, ""),
            "setup file, key `namespace`, row 0: the value is not allowed",
        ),
        (
            (0, "namespace = 4294967296"),
            (2, ""),
            "setup file, key `namespace`, row 0: the value is not allowed",
        ),
        (
            (0, "namespace = 7.0"),
            (2, ""),
            "setup file, key `namespace`, row 0: the value is not allowed",
        ),
        (
            (3, "name = \"\""),
            (4, ""),
            "setup file, key `identity.name`, row 0: the value is not allowed",
        ),
        (
            (4, TOKEN_IN_CAPITALS),
            (5, ""),
            "setup file, key `identity.tokens`, row 0: the value is not allowed",
        ),
        (
            (9, TOKEN_OF_ANN),
            (10, ""),
            "setup file, key `identity.tokens`, row 1: the value is not allowed",
        ),
        (
            (9, TOKEN_TWICE),
            (10, ""),
            "setup file, key `identity.tokens`, row 1: the value is not allowed",
        ),
        (
            (5, "groups = [\"ann\"]"),
            (7, ""),
            "setup file, key `identity.groups`, row 0: the value is not allowed",
        ),
        (
            (18, "name = 1"),
            (24, ""),
            "setup file, key `collection.name`, row 1: the value is not allowed",
        ),
        (
            (24, "owner = \"bob\""),
            (25, ""),
            "setup file, key `collection.owner`, row 2: the value is not allowed",
        ),
        (
            (15, "home = \"//\""),
            (17, ""),
            "setup file, key `collection.home`, row 0: the value is not allowed",
        ),
        // Row by row, not key by key; values before what is wrong between rows; identifiers before owners.
        (
            (5, ""),
            (7, ""),
            "setup file, key `identity.groups`, row 0: missing",
        ),
        (
            (7, ANN_AGAIN),
            (25, ""),
            "setup file, key `collection.home`, row 2: missing",
        ),
        (
            (7, ANN_AGAIN),
            (14, NO_OWNER),
            "setup file: the identifier 00000000-0000-4000-8000-0000000000a1 stands twice",
        ),
        (
            (17, LAB_AGAIN),
            (14, NO_OWNER),
            "setup file: the identifier 00000000-0000-4000-8000-0000000000c0 stands twice",
        ),
        (
            (14, NO_OWNER),
            (14, NO_OWNER),
            "setup file: the owner 00000000-0000-4000-8000-0000000000c0 is no identity",
        ),
        // An identity and a collection may have one identifier.
        ((12, ANN_AGAIN), (12, ANN_AGAIN), "read"),
    ];
    for (first, second, line) in cases {
        let text = edited(alloc, first, second)?;
        assert_eq!(rt; told(alloc, text.as_bytes())?.as_str(), line);
    }
    Ok(())
}

#[test]
fn short_texts_are_judged(rt: HostRuntime) -> Result<(), Fail> {
    let alloc = rt.alloc();
    let cases: [(&[u8], &str); 7] = [
        (b"", "setup file, key `namespace`, row 0: missing"),
        (
            b"namespace = 7",
            "setup file, key `identity`, row 0: missing",
        ),
        (
            b"namespace = 7\nidentity = 7",
            "setup file, key `identity`, row 0: the value is not allowed",
        ),
        (
            b"namespace = 7\nidentity = []",
            "setup file, key `identity`, row 0: the value is not allowed",
        ),
        (
            b"namespace = 7\nidentity = [7]",
            "setup file, key `identity`, row 0: the value is not allowed",
        ),
        (b"namespace = ", "setup file: not TOML in UTF-8"),
        (b"namespace = 7 # \xff", "setup file: not TOML in UTF-8"),
    ];
    for (text, line) in cases {
        assert_eq!(rt; told(alloc, text)?.as_str(), line);
    }
    Ok(())
}

#[test]
fn names_and_sizes_at_their_limits(rt: HostRuntime) -> Result<(), Fail> {
    let alloc = rt.alloc();
    let mut name = String::from_str(alloc, "name = \"")?;
    for _ in 0..255 {
        name.push('n')?;
    }
    for (end, line) in [
        ("\"", "read"),
        (
            "n\"",
            "setup file, key `identity.name`, row 0: the value is not allowed",
        ),
    ] {
        let longest = format!(in alloc; "{name}{end}")?;
        let text = edited(alloc, (3, longest.as_str()), (3, ""))?;
        assert_eq!(rt; told(alloc, text.as_bytes())?.as_str(), line);
    }
    let comment = edited(alloc, (0, LINES[0]), (0, ""))?;
    for (size, line) in [
        (1_048_576, "read"),
        (
            1_048_577,
            "setup file: 1048577 bytes, and at most 1048576 are allowed",
        ),
    ] {
        let mut bytes = vec![in alloc; b'\n'; size]?;
        let len = comment.len();
        if len <= bytes.len() {
            bytes[..len].copy_from_slice(comment.as_bytes());
        }
        assert_eq!(rt; told(alloc, &bytes)?.as_str(), line);
    }
    Ok(())
}

#[test]
fn want_of_memory_is_told(rt: HostRuntime) -> Result<(), Fail> {
    let text = format!(in rt.alloc(); "{}", SetupFault::OutOfMemory)?;
    assert_eq!(rt; text.as_str(), "out of memory");
    Ok(())
}
