// What no clause says: texts from outside, and how places are written.
ghost use Rattle.gt_documents.specs.Members.{number_if, object_at};
ghost use Rattle.gt_values.specs.Results.{◌>>=◌};
ghost use Rattle.std.specs.Prelude.{codes, true};

use gt_documents::{
    DocumentFault, Place, ReadItem, Step, first_value, is_object, items, number_if_there,
    object_in, read_page,
};
use serde_json::Value;
use std::alloc::Global;
use std::test::Fail;

// Items that are objects with a member `level`, from 0 to 3.
struct Levels;

impl ReadItem for Levels {
    type Item = Option<u64>;

    ghost reading = { λ _ d. object_at d >>= λ _. number_if 0 3 d (codes "level") };

    ghost is_good = { λ _ _. true };

    fn read(&self, _alloc: Global, value: &Value) -> Result<Option<u64>, DocumentFault> {
        is_object(value)?;
        Ok(number_if_there(value, "level", 0, 3)?)
    }
}

// How many items a body's `DATA` has, from 1 to 2.
fn read(alloc: Global, body: &[u8]) -> Result<usize, DocumentFault> {
    let object = object_in(alloc, body)?;
    Ok(items(alloc, &object, "DATA", 1, 2, &Levels)?.len())
}

// What the reading of a body tells: the number of items, or the place.
fn told(alloc: Global, body: &[u8]) -> Result<String, Fail> {
    match read(alloc, body) {
        Ok(count) => Ok(format!(in alloc; "{count}")?),
        Err(DocumentFault::Bad(place)) => Ok(place.text(alloc)?.into_string()),
        Err(DocumentFault::OutOfMemory) => Ok(String::from_str(alloc, "memory")?),
    }
}

// A body with a member of so many nested lists, in an object, before its `DATA`.
fn nested(alloc: Global, lists: usize) -> Result<String, Fail> {
    let mut text = String::from_str(alloc, "{\"a\":")?;
    for _ in 0..lists {
        text.push('[')?;
    }
    for _ in 0..lists {
        text.push(']')?;
    }
    text.push_str(",\"DATA\":[{}]}")?;
    Ok(text)
}

#[test]
fn bodies_are_told(rt: HostRuntime) -> Result<(), Fail> {
    let alloc = rt.alloc();
    let cases: [(&[u8], &str); 22] = [
        (b"", "body"),
        (b"7", "body"),
        (b"[]", "body"),
        (b"{\"DATA\":[{}]} {}", "body"),
        (b"{\"DATA\":[{}],\"a\":\"\xff\"}", "body"),
        (b"{\"DATA\":[{}],\"a\":\"\\ud800\"}", "body"),
        (b"{\"DATA\":[{}],\"a\":\"\\ud83d\\ude00\"}", "1"),
        // Absent, null, no list, no item, too many.
        (b"{}", "DATA"),
        (b"{\"DATA\":null}", "DATA"),
        (b"{\"DATA\":{}}", "DATA"),
        (b"{\"DATA\":[]}", "DATA"),
        (b"{\"DATA\":[{},{}]}", "2"),
        (b"{\"DATA\":[{},{},{}]}", "DATA"),
        // Of a member that stands twice the last counts.
        (b"{\"DATA\":[{}],\"DATA\":[{},{}]}", "2"),
        (b"{\"DATA\":[{}],\"DATA\":7}", "DATA"),
        // The first bad item, and the first bad member of it.
        (b"{\"DATA\":[{},7]}", "DATA[1]"),
        (b"{\"DATA\":[{\"level\":4},7]}", "DATA[0].level"),
        (
            b"{\"DATA\":[{\"level\":3},{\"level\":1.0}]}",
            "DATA[1].level",
        ),
        (b"{\"DATA\":[{\"level\":1e0}]}", "DATA[0].level"),
        (b"{\"DATA\":[{\"level\":-0}]}", "DATA[0].level"),
        (b"{\"DATA\":[{\"level\":\"1\"}]}", "DATA[0].level"),
        (b"{\"DATA\":[{\"level\":null},{\"level\":0}]}", "2"),
    ];
    for (body, line) in cases {
        assert_eq!(rt; told(alloc, body)?.as_str(), line);
    }
    Ok(())
}

#[test]
fn nesting_ends_at_127(rt: HostRuntime) -> Result<(), Fail> {
    let alloc = rt.alloc();
    // The object itself is the first of them.
    for (lists, line) in [(126, "1"), (127, "body")] {
        let body = nested(alloc, lists)?;
        assert_eq!(rt; told(alloc, body.as_bytes())?.as_str(), line);
    }
    Ok(())
}

#[test]
fn places_tell_four_steps(rt: HostRuntime) -> Result<(), Fail> {
    let alloc = rt.alloc();
    let place = Place::member("path")
        .in_item("DATA", 10)
        .under(Step::member("transfer"));
    assert_eq!(rt; place.text(alloc)?.as_str(), "transfer.DATA[10].path");
    let place = place.under(Step::member("outer"));
    assert_eq!(rt; place.text(alloc)?.as_str(), "outer.transfer.DATA[10]");
    assert_eq!(rt; Place::whole().text(alloc)?.as_str(), "body");
    assert_eq!(rt; Place::query().text(alloc)?.as_str(), "query");
    Ok(())
}

// The page of a query, or none where it is bad.
fn page_in(alloc: Global, query: &[u8]) -> Option<(u32, u64)> {
    match read_page(alloc, query) {
        Ok(page) => Some((page.limit, page.offset)),
        Err(_) => None,
    }
}

#[test]
fn queries_are_told(rt: HostRuntime) -> Result<(), Fail> {
    let alloc = rt.alloc();
    let cases: [(&[u8], Option<(u32, u64)>); 12] = [
        (b"", Some((100, 0))),
        (b"limit=1&offset=2", Some((1, 2))),
        (b"limit=1000", Some((1000, 0))),
        (b"limit=1001", None),
        (b"limit=0", None),
        (b"limit", None),
        (b"limit=007", None),
        (b"limit=%2B7", None),
        // Names are decoded, and the first of a name counts.
        (b"%6Cimit=7", Some((7, 0))),
        (b"li+mit=7&l%69mit=8", Some((8, 0))),
        (b"limit=7&limit=x", Some((7, 0))),
        (b"offset=18446744073709551616", None),
    ];
    for (query, read) in cases {
        assert_eq!(rt; page_in(alloc, query), read);
    }
    match first_value(alloc, b"a+b=1%202", "a b")? {
        Some(value) => assert_eq!(rt; value.as_str(), "1 2"),
        None => assert!(rt; false, "no value"),
    }
    Ok(())
}
