use crate::places::number;
use crate::{
    Cells, ConstUid, Event, EventCell, MarkUid, Pair, Place, Record, ShaUid, UidMaker, View,
    canonical, place, view,
};
use dw_key::{DType, Text, Uid};
use dw_vis::{Auths, Vis};
use std::alloc::Global;
use std::test::Fail;

fn record_of(alloc: Global, cells: &[(&str, &str)]) -> Result<Record, Fail> {
    let mut all = Cells::new(alloc);
    for (field, raw) in cells {
        let field = Text::of(alloc, field)?;
        let raw = Text::of(alloc, raw)?;
        let vis = Vis::everyone(alloc);
        all.put(EventCell { field, raw, vis })?;
    }
    Ok(Record {
        dtype: DType::of(b"lab").ok_or("no type")?,
        date: Text::of(alloc, "20240101")?,
        cells: all,
    })
}

/// A uid with these four bytes at the end of its first word, and of its last.
fn uid_of(s: [u8; 4], i: [u8; 4]) -> Uid {
    [
        0, 0, 0, 0, s[0], s[1], s[2], s[3], 0, 0, 0, 0, 0, 0, 0, 0, 0, 0, 0, 0, 0, 0, 0, 0, 0, 0,
        0, 0, i[0], i[1], i[2], i[3],
    ]
}

fn place_by_mark(alloc: Global, id: &str) -> Result<Place, Fail> {
    let rec = record_of(alloc, &[("A", "x"), ("ID", id)])?;
    Ok(place(alloc, &MarkUid, &rec)?)
}

#[test]
fn cells_come_in_order_and_once(rt: HostRuntime) -> Result<(), Fail> {
    let alloc = rt.alloc();
    let puts = [
        ("B", "2"),
        ("A", "x"),
        ("B", "1"),
        ("A", "x"),
        ("B", "10"),
        ("A1", "a"),
    ];
    let cells = record_of(alloc, &puts)?.cells;
    let kept = [("A", "x"), ("A1", "a"), ("B", "1"), ("B", "10"), ("B", "2")];
    assert_eq!(rt; cells.as_slice().len(), 5);
    for (cell, (field, raw)) in cells.as_slice().iter().zip(kept) {
        assert_eq!(rt; cell.field.as_str(), field);
        assert_eq!(rt; cell.raw.as_str(), raw);
    }
    let other = cells.copy()?;
    assert!(rt; cells.is_same(&other));
    assert!(rt; cells == other);
    assert!(rt; !cells.is_same(&Cells::new(alloc)));
    Ok(())
}

#[test]
fn a_record_has_its_canonical_bytes(rt: HostRuntime) -> Result<(), Fail> {
    let alloc = rt.alloc();
    let rec = record_of(alloc, &[("ID", "0-1"), ("B", "2"), ("B", "1")])?;
    let bytes = canonical(alloc, &rec)?;
    let wanted = b"lab\x0020240101\0B\x001\0\0B\x002\0\0ID\x000-1\0\0";
    assert_eq!(rt; bytes.as_slice(), wanted.as_slice());
    Ok(())
}

#[test]
fn sha_of_abc_is_the_standards(rt: HostRuntime) {
    let uid = ShaUid.digest(b"abc");
    let wanted = [
        0xba, 0x78, 0x16, 0xbf, 0x8f, 0x01, 0xcf, 0xea, 0x41, 0x41, 0x40, 0xde, 0x5d, 0xae, 0x22,
        0x23, 0xb0, 0x03, 0x61, 0xa3, 0x96, 0x17, 0x7a, 0x9c, 0xb4, 0x10, 0xff, 0x61, 0xf2, 0x00,
        0x15, 0xad,
    ];
    assert_eq!(rt; uid, wanted);
    assert_eq!(rt; number(&uid), 10);
}

#[test]
fn a_mark_gives_the_uid(rt: HostRuntime) {
    let none = ([0; 4], [0; 4]);
    let most = ([255; 4], [255; 4]);
    let cases = [
        ("lab\020240101\0ID\00-1\0\0", ([0; 4], [0, 0, 0, 1])),
        ("\0ID\012-258\0", ([0, 0, 0, 12], [0, 0, 1, 2])),
        ("\0ID\0007-0008x", ([0, 0, 0, 7], [0, 0, 0, 8])),
        ("\0ID\04294967295-4294967295", most),
        ("\0ID\04294967296-1", none),
        ("\0ID\01-4294967296", none),
        ("\0ID\01", none),
        ("\0ID\0-1", none),
        ("\0ID\01-", none),
        ("\0ID\0x\0\0ID\01-2", none),
        ("ID\01-2\0XID\01-2", none),
        ("", none),
    ];
    for (text, (s, i)) in cases {
        assert_eq!(rt; MarkUid.digest(text.as_bytes()), uid_of(s, i), "{text:?}");
    }
}

#[test]
fn a_record_has_its_place(rt: HostRuntime) -> Result<(), Fail> {
    let alloc = rt.alloc();
    let cases = [
        ("0-1", "20240101_0", uid_of([0; 4], [0, 0, 0, 1])),
        ("2-1", "20240101_2", uid_of([0, 0, 0, 2], [0, 0, 0, 1])),
        ("10-1", "20240101_10", uid_of([0, 0, 0, 10], [0, 0, 0, 1])),
        ("31-2", "20240101_15", uid_of([0, 0, 0, 31], [0, 0, 0, 2])),
    ];
    for (id, shard, uid) in cases {
        let found = place_by_mark(alloc, id)?;
        assert_eq!(rt; found.shard.as_str(), shard);
        assert_eq!(rt; found.key.dtype.as_slice(), b"lab".as_slice());
        assert_eq!(rt; found.key.uid, uid);
    }
    Ok(())
}

#[test]
fn places_ascend_by_the_bytes_of_the_shard(rt: HostRuntime) -> Result<(), Fail> {
    let alloc = rt.alloc();
    let second = place_by_mark(alloc, "2-1")?;
    let tenth = place_by_mark(alloc, "10-1")?;
    assert!(rt; tenth < second);
    Ok(())
}

#[test]
fn a_constant_uid_gives_records_one_place(rt: HostRuntime) -> Result<(), Fail> {
    let alloc = rt.alloc();
    let one = place(alloc, &ConstUid, &record_of(alloc, &[("A", "x")])?)?;
    let other = place(alloc, &ConstUid, &record_of(alloc, &[("A", "y")])?)?;
    assert!(rt; one == other);
    assert_eq!(rt; one.shard.as_str(), "20240101_0");
    assert_eq!(rt; one.key.uid, [0; 32]);
    Ok(())
}

/// An event of three cells of one value and another of one field, which unlike readers see.
fn event_of(alloc: Global) -> Result<Event, Fail> {
    let mut cells = Cells::new(alloc);
    for (raw, vis) in [("2", "S&T"), ("1", "S"), ("1", ""), ("1", "T")] {
        let field = Text::of(alloc, "A")?;
        let raw = Text::of(alloc, raw)?;
        let vis = Vis::parse(alloc, vis.as_bytes()).or(Err("no visibility"))?;
        cells.put(EventCell { field, raw, vis })?;
    }
    let place = place_by_mark(alloc, "0-1")?;
    Ok(Event {
        shard: place.shard,
        key: place.key,
        cells,
        batch: 1,
    })
}

fn shows(view: &View, raws: &[&str]) -> bool {
    let pairs = view.as_slice();
    pairs.len() == raws.len()
        && pairs
            .iter()
            .zip(raws)
            .all(|(pair, raw)| is_shown(pair, raw))
}

fn is_shown(pair: &Pair, raw: &str) -> bool {
    pair.field.as_str() == "A" && pair.raw.as_str() == raw
}

#[test]
fn readers_see_what_they_may(rt: HostRuntime) -> Result<(), Fail> {
    let alloc = rt.alloc();
    let event = event_of(alloc)?;
    assert_eq!(rt; event.cells.as_slice().len(), 4);
    let mut auths = Auths::new(alloc);
    let seen = view(alloc, &event, &auths)?;
    assert!(rt; shows(&seen, &["1"]));
    auths.add("S")?;
    let seen = view(alloc, &event, &auths)?;
    assert!(rt; shows(&seen, &["1"]));
    auths.add("T")?;
    let seen = view(alloc, &event, &auths)?;
    assert!(rt; shows(&seen, &["1", "2"]));
    assert!(rt; shows(&seen.copy()?, &["1", "2"]));
    Ok(())
}

#[test]
fn a_visibility_stands_in_the_canonical_bytes(rt: HostRuntime) -> Result<(), Fail> {
    let alloc = rt.alloc();
    let rec = Record {
        dtype: DType::of(b"lab").ok_or("no type")?,
        date: Text::of(alloc, "20240101")?,
        cells: event_of(alloc)?.cells,
    };
    let bytes = canonical(alloc, &rec)?;
    let wanted = b"lab\x0020240101\0A\x001\0\0A\x001\0S\0A\x001\0T\0A\x002\0S&T\0";
    assert_eq!(rt; bytes.as_slice(), wanted.as_slice());
    Ok(())
}
