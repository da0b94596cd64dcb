use gt_index::{Asked, Index, Keyed};
use std::cmp::Ordering;
use std::test::Fail;

#[derive(Drop)]
struct Row {
    key: u32,
}

impl Keyed for Row {
    type Key = u32;

    ghost key = { λ row. row.key };

    fn compare(&self, other: &Row) -> Ordering {
        self.key.cmp(&other.key)
    }
}

struct Wanted(u32);

impl Asked<Row> for Wanted {
    ghost asked = { λ wanted. wanted.0 };

    fn standing(&self, row: &Row) -> Ordering {
        row.key.cmp(&self.0)
    }
}

#[test]
fn rows_by_their_keys(rt: HostRuntime) -> Result<(), Fail> {
    let alloc = rt.alloc();
    let mut rows = Vec::new(alloc);
    let mut index = Index::new(alloc);
    for (place, key) in [(0, 5), (1, 3), (2, 5), (3, 9), (4, 1), (5, 5)] {
        index.reserve(1)?;
        rows.push(Row { key })?;
        index.insert(&rows, place);
    }
    assert_eq!(rt; index.run(&rows, &Wanted(5)), [0, 2, 5].as_slice());
    assert_eq!(rt; index.run(&rows, &Wanted(4)), [].as_slice());
    assert_eq!(rt; index.run(&rows, &Wanted(9)), [3].as_slice());
    assert_eq!(rt; index.first_from(&rows, &Wanted(0)), Some(4));
    assert_eq!(rt; index.first_from(&rows, &Wanted(4)), Some(0));
    assert_eq!(rt; index.first_from(&rows, &Wanted(10)), None);

    // A place that isn't there, or that is, changes nothing more.
    index.remove(&rows, 0);
    index.remove(&rows, 0);
    assert_eq!(rt; index.run(&rows, &Wanted(5)), [2, 5].as_slice());
    index.reserve(2)?;
    index.insert(&rows, 0);
    index.insert(&rows, 0);
    assert_eq!(rt; index.run(&rows, &Wanted(5)), [0, 2, 5].as_slice());
    Ok(())
}
