use gt_values::{
    Bytes, Clock, Digest, FixedClock, Id, Moment, MomentFault, Sequence, Table, Text, is_alive,
    read_decimal,
};
use std::test::Fail;

const TASK_ONE: &str = "00000007-0002-8000-8000-000000000001";

#[test]
fn made_identifiers(rt: HostRuntime) -> Result<(), Fail> {
    let submission = Id::made(7, 1, 1);
    let task = Id::made(7, 2, 1);
    assert_eq!(rt;
        submission.print(rt.alloc())?.as_str(),
        "00000007-0001-8000-8000-000000000001"
    );
    assert_eq!(rt; task.print(rt.alloc())?.as_str(), TASK_ONE);
    assert!(rt; Id::read(TASK_ONE) == Some(task));
    assert!(rt; submission != task && submission < task);
    let last = Id::made(u32::MAX, 5, 0xffff_ffff_ffff);
    assert_eq!(rt;
        last.print(rt.alloc())?.as_str(),
        "ffffffff-0005-8000-8000-ffffffffffff"
    );
    assert!(rt; Id::from_bytes(*last.as_bytes()) == last);
    Ok(())
}

#[test]
fn forms_of_an_identifier(rt: HostRuntime) -> Result<(), Fail> {
    let read = [
        "67e55044-10b1-426f-9247-bb680e5fe0c8",
        "67E55044-10B1-426F-9247-BB680E5FE0c8",
        "67e5504410b1426f9247bb680e5fe0c8",
        "{67e55044-10b1-426f-9247-bb680e5fe0c8}",
        "urn:uuid:67e55044-10B1-426f-9247-bb680e5fe0c8",
    ];
    for text in read {
        let id = Id::read(text).ok_or("refused")?;
        assert_eq!(rt;
            id.print(rt.alloc())?.as_str(),
            "67e55044-10b1-426f-9247-bb680e5fe0c8",
            "{text}"
        );
    }
    let refused = [
        "",
        "URN:UUID:67e55044-10b1-426f-9247-bb680e5fe0c8",
        "urn:UUID:67e55044-10b1-426f-9247-bb680e5fe0c8",
        "urn:uuid:67e5504410b1426f9247bb680e5fe0c8",
        "{67e5504410b1426f9247bb680e5fe0c8}",
        "67e55044-10b1-426f-9247-bb680e5fe0c",
        "67e55044-10b1-426f-9247-bb680e5fe0cg",
        "67e55044x10b1-426f-9247-bb680e5fe0c8",
        "67e5504-410b1-426f-9247-bb680e5fe0c8",
        "(67e55044-10b1-426f-9247-bb680e5fe0c8)",
        " 67e55044-10b1-426f-9247-bb680e5fe0c8",
    ];
    for text in refused {
        assert!(rt; Id::read(text).is_none(), "{text}");
    }
    Ok(())
}

#[test]
fn moment_with_offset(rt: HostRuntime) -> Result<(), Fail> {
    let moment = Moment::read("1970-01-01 01:01:40.9+01:00")?;
    assert_eq!(rt; moment.seconds(), 100);
    assert_eq!(rt;
        moment.print(rt.alloc())?.as_str(),
        "1970-01-01T00:01:40+00:00"
    );
    let read = [
        ("1970-01-01T00:01:40", 100),
        ("1970-01-01t00:01:40z", 100),
        ("1970-01-01T00:01:40.123456789Z", 100),
        ("1969-12-31T00:01:00-23:59", 0),
        ("1970-01-01T23:59:59+23:59", 59),
        ("2016-12-31T23:59:60Z", 1_483_228_799),
        ("2024-02-29T00:00:00Z", 1_709_164_800),
        ("9999-12-31T23:59:60Z", 253_402_300_799),
    ];
    for (text, seconds) in read {
        match Moment::read(text) {
            Ok(moment) => assert_eq!(rt; moment.seconds(), seconds, "{text}"),
            Err(_) => panic!(rt; "{text}"),
        }
    }
    Ok(())
}

#[test]
fn texts_that_are_no_moment(rt: HostRuntime) {
    let refused = [
        "",
        "1970-01-01",
        "1970-01-01T00:01",
        "1970-01-01_00:01:40",
        "1970-01-01T00:01:40.",
        "1970-01-01T00:01:40.1234567890",
        "1970-01-01T00:01:40,5Z",
        "1970-01-01T00:01:61Z",
        "1970-01-01T24:00:00Z",
        "1970-01-01T00:60:00Z",
        "1970-01-01T00:01:40+24:00",
        "1970-01-01T00:01:40+01:60",
        "1970-01-01T00:01:40+0100",
        "1970-01-01T00:01:40 +01:00",
        "1970-01-01T00:01:40ZZ",
        "2023-02-29T00:00:00Z",
        "2100-02-29T00:00:00Z",
        "1970-00-01T00:00:00Z",
        "1969-12-31T23:59:59Z",
        "1970-01-01T00:00:00+00:01",
        "9999-12-31T23:59:59-00:01",
        "+001970-01-01T00:01:40Z",
        "1970-01-01T00:01:40Z[UTC]",
    ];
    for text in refused {
        assert!(rt; Moment::read(text) == Err(MomentFault::Refused), "{text}");
    }
}

#[test]
fn last_moment(rt: HostRuntime) -> Result<(), Fail> {
    let last = Moment::of(253_402_300_799).ok_or("none")?;
    assert_eq!(rt;
        last.print(rt.alloc())?.as_str(),
        "9999-12-31T23:59:59+00:00"
    );
    assert!(rt; Moment::of(253_402_300_800).is_none());
    assert!(rt; Moment::zero().max(last) == last);
    assert!(rt; FixedClock(last).now() == last);
    Ok(())
}

#[test]
fn calls_that_take_memory(rt: HostRuntime) -> Result<(), Fail> {
    let text = Text::copy_of(rt.alloc(), "größer")?;
    assert_eq!(rt; text.as_str(), "größer");
    assert!(rt; text.clone()? == text);

    let bytes = Bytes::from_vec(vec![in rt.alloc(); 0, 255]?);
    assert!(rt; bytes.clone()? == bytes);

    let ids = Sequence::from_vec(vec![in rt.alloc(); Id::made(1, 1, 1), Id::made(1, 1, 2)]?);
    assert!(rt; ids.clone()? == ids);

    let mut rows = Table::new(rt.alloc());
    rows.reserve(3)?;
    let more = vec![in rt.alloc(); Digest::from_bytes([2; 32]), Digest::from_bytes([3; 32])]?;
    rows.add(Digest::from_bytes([1; 32]));
    rows.append(more);
    *rows.row_mut(2) = Digest::from_bytes([4; 32]);
    assert_eq!(rt; rows.len(), 3);
    assert!(rt; rows.row(1) == Some(&Digest::from_bytes([1; 32])));
    assert!(rt; rows.row(2) == Some(&Digest::from_bytes([4; 32])));
    assert!(rt; rows.row(0).is_none() && rows.row(4).is_none());
    Ok(())
}

#[test]
fn plain_numbers(rt: HostRuntime) -> Result<(), Fail> {
    for (text, most, number) in [
        ("0", 0, Some(0)),
        ("1000", 1000, Some(1000)),
        ("1001", 1000, None),
        ("18446744073709551615", u64::MAX, Some(u64::MAX)),
        ("18446744073709551616", u64::MAX, None),
        ("", 9, None),
        ("00", 9, None),
        ("07", 9, None),
        ("+7", 9, None),
        ("-7", 9, None),
        (" 7", 9, None),
        ("7 ", 9, None),
        ("0x7", 9, None),
        ("٧", 9, None),
    ] {
        assert!(rt; read_decimal(text, most) == number, "{text}");
    }
    Ok(())
}

#[test]
fn rules_count_between_their_events(rt: HostRuntime) -> Result<(), Fail> {
    for (event, ended, alive) in [
        (3, None, false),
        (4, None, true),
        (5, Some(6), true),
        (6, Some(6), false),
        (4, Some(4), false),
    ] {
        assert_eq!(rt; is_alive(event, 3, ended), alive);
    }
    Ok(())
}
