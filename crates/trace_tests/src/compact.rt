use crate::event::{EVENTS, SMALL as FIRST_VERSION, header_fault, known, record};
use spp_cut::{CutFault, cut_bytes};
use spp_event::{
    BadEvent, Event, EventFault, HeaderFault, MigrateFault, Reader, RecordMigration, Trace,
    compact_of, items_in, migrate, open_trace,
};
use std::alloc::{AllocError, Global};
use std::test::Fail;

/// The small trace of seven events in version 2.
const SMALL: &[u8] = b"SPTRACE2\x00\x00\x00\x02\x00\x00\x00\x01\x00\x00\x00\x00\x00\x00\x00\x07\
\x00\x04main\x00\x01f\x00\x01A\
\x80\x41\x82\x40\x41\x80\x4a\x83\x80\x44\x84\x80\x42";

/// Where the items of `SMALL` begin.
const BODY: usize = 36;

/// The bytes of a trace of so many events, of the functions and the site of `SMALL`, with this body.
fn with_body(alloc: Global, events: u8, body: &[u8]) -> Result<Vec<u8>, AllocError> {
    let mut bytes = SMALL[..BODY].to_vec(alloc)?;
    if let Some(place) = bytes.get_mut(23) {
        *place = events;
    }
    bytes.extend_from_slice(body)?;
    Ok(bytes)
}

/// What a reader of the trace reads at each position, one after the other.
fn read_all(
    alloc: Global,
    trace: &Trace<'_>,
) -> Result<Vec<Result<Event, EventFault>>, AllocError> {
    let mut told = Vec::new(alloc);
    let mut events = trace.events();
    for i in 0..trace.count() {
        told.push(events.read(trace, i))?;
    }
    Ok(told)
}

/// The same of the trace that the bytes open as; nothing where they open as none.
fn read_in_turn(alloc: Global, bytes: &[u8]) -> Result<Vec<Result<Event, EventFault>>, AllocError> {
    match open_trace(alloc, bytes) {
        Ok(trace) => read_all(alloc, &trace),
        Err(_) => Ok(Vec::new(alloc)),
    }
}

/// The events of the trace up to the first bad one, read in turn as known ones.
fn known_in_turn(alloc: Global, trace: &Trace<'_>) -> Result<Vec<Event>, AllocError> {
    let mut told = Vec::new(alloc);
    let mut events = trace.events();
    for i in 0..trace.count() {
        if trace.event_at(i).is_err() {
            break;
        }
        told.push(events.read_known(trace, i))?;
    }
    Ok(told)
}

#[test]
fn a_small_trace_of_version_2_opens(rt: HostRuntime) -> Result<(), Fail> {
    assert_eq!(rt; SMALL.len(), 49);
    let Ok(trace) = open_trace(rt.alloc(), SMALL) else {
        return Err("it opens".into());
    };
    assert!(rt; trace.version() == 2 && trace.body_len() == 13);
    assert!(rt; trace.count() == 7 && trace.root() == 0);
    assert!(rt; trace.funcs() == 2 && trace.sites() == 1);
    assert_eq!(rt; trace.func_name(1), "f");
    assert_eq!(rt; trace.site_name(0), "A");
    Ok(())
}

#[test]
fn each_event_of_a_small_trace_is_read(rt: HostRuntime) -> Result<(), Fail> {
    let Ok(trace) = open_trace(rt.alloc(), SMALL) else {
        return Err("it opens".into());
    };
    let read = read_all(rt.alloc(), &trace)?;
    let known_ones = known_in_turn(rt.alloc(), &trace)?;
    for (i, event) in EVENTS.iter().enumerate() {
        assert_eq!(rt; record(rt.alloc(), SMALL, i as u32), Some(Ok(*event)));
        assert_eq!(rt; known(rt.alloc(), SMALL, i as u32), Some(*event));
        assert_eq!(rt; read.get(i), Some(&Ok(*event)));
    }
    assert!(rt; known_ones.as_slice() == EVENTS.as_slice());
    Ok(())
}

/// The bytes in version 2 of the trace that these open as, or why there are none; none where they don't open.
fn migrated(alloc: Global, bytes: &[u8]) -> Option<Result<Vec<u8>, MigrateFault>> {
    let trace = open_trace(alloc, bytes).ok()?;
    Some(migrate(alloc, &trace))
}

#[test]
fn a_trace_is_written_in_version_2(rt: HostRuntime) -> Result<(), Fail> {
    for bytes in [FIRST_VERSION, SMALL] {
        let Some(Ok(written)) = migrated(rt.alloc(), bytes) else {
            return Err("it is written".into());
        };
        assert_eq!(rt; written.as_slice(), SMALL);
    }
    let bad = with_body(rt.alloc(), 3, b"\x80\x41\x82\x41\x40\x83\x40")?;
    let Some(Err(fault)) = migrated(rt.alloc(), bad.as_slice()) else {
        return Err("it has a bad event".into());
    };
    let first = MigrateFault::Bad {
        at: 1,
        why: EventFault::Site,
    };
    assert!(rt; fault == first);
    Ok(())
}

/// What is written of the trace with the header of `SMALL` whose records come in these two pieces; none where they are more than it
/// claims.
fn records_migrated(
    alloc: Global,
    first: &[u8],
    second: &[u8],
) -> Option<Result<Vec<u8>, BadEvent>> {
    let trace = open_trace(alloc, SMALL).ok()?;
    if first.len() / 16 + second.len() / 16 > trace.count() as usize {
        return None;
    }
    let Ok(begun) = RecordMigration::new(alloc, &trace) else {
        return None;
    };
    let Ok(some) = begun.followed_by(first) else {
        return None;
    };
    let Ok(all) = some.followed_by(second) else {
        return None;
    };
    Some(all.end())
}

/// The same of items.
fn items_migrated(alloc: Global, first: &[u8], second: &[u8]) -> Option<Result<Vec<u8>, BadEvent>> {
    let trace = open_trace(alloc, SMALL).ok()?;
    let (before, behind) = (items_in(first), items_in(second));
    let count = trace.count() as usize;
    if before > count || behind > count - before {
        return None;
    }
    let Ok(begun) = RecordMigration::new(alloc, &trace) else {
        return None;
    };
    let Ok(some) = begun.followed_by_items(first) else {
        return None;
    };
    let Ok(all) = some.followed_by_items(second) else {
        return None;
    };
    Some(all.end())
}

/// Whether what was migrated has that first bad event.
fn is_bad(ended: Option<Result<Vec<u8>, BadEvent>>, at: u32, why: EventFault) -> bool {
    match ended {
        Some(Err(bad)) => bad == BadEvent { at, why },
        _ => false,
    }
}

/// Whether it is `SMALL`.
fn is_small(ended: Option<Result<Vec<u8>, BadEvent>>) -> bool {
    match ended {
        Some(Ok(bytes)) => bytes.as_slice() == SMALL,
        _ => false,
    }
}

#[test]
fn records_are_written_piece_by_piece(rt: HostRuntime) -> Result<(), Fail> {
    let alloc = rt.alloc();
    let mut body = FIRST_VERSION[BODY..].to_vec(alloc)?;
    assert_eq!(rt; body.len(), 112);
    for len in [0, 16, 48, 112] {
        let body = body.as_slice();
        assert!(rt;
            is_small(records_migrated(alloc, &body[..len], &body[len..])),
            "{len}"
        );
    }
    let short = records_migrated(alloc, &body[..16], &body[16..80]);
    assert!(rt; is_bad(short, 5, EventFault::Truncated));
    // the first of two bad ones is the last of the first piece, or in the second
    body.as_mut_slice()[32] = 9;
    body.as_mut_slice()[64] = 9;
    for len in [32, 48, 64, 80] {
        let body = body.as_slice();
        let ended = records_migrated(alloc, &body[..len], &body[len..]);
        assert!(rt; is_bad(ended, 2, EventFault::Tag), "{len}");
    }
    Ok(())
}

#[test]
fn items_are_written_piece_by_piece(rt: HostRuntime) -> Result<(), Fail> {
    let alloc = rt.alloc();
    let body = &SMALL[BODY..];
    assert_eq!(rt; body.len(), 13);
    for len in [0, 2, 5, 13] {
        assert!(rt;
            is_small(items_migrated(alloc, &body[..len], &body[len..])),
            "{len}"
        );
    }
    // an item is cut
    let ended = items_migrated(alloc, &body[..4], &body[5..]);
    assert!(rt; is_bad(ended, 1, EventFault::Operand));
    let ended = items_migrated(alloc, &body[..5], &body[10..]);
    assert!(rt; is_bad(ended, 4, EventFault::Truncated));
    Ok(())
}

/// Events, and the items that they are spelled as.
const ITEMS: &[(Event, &[u8])] = &[
    (Event::Strand { count: 0 }, b"\x80\x40"),
    (Event::Strand { count: 64 }, b"\x80\x01\x40"),
    (
        Event::Strand { count: u64::MAX },
        b"\x80\x0f\x3f\x3f\x3f\x3f\x3f\x3f\x3f\x3f\x3f\x7f",
    ),
    (
        Event::Call {
            site: u32::MAX,
            func: 65,
        },
        b"\x81\x03\x3f\x3f\x3f\x3f\x7f\x01\x41",
    ),
    // the longest item, of an event that no trace has
    (
        Event::Call {
            site: u32::MAX,
            func: u32::MAX,
        },
        b"\x81\x03\x3f\x3f\x3f\x3f\x7f\x03\x3f\x3f\x3f\x3f\x7f",
    ),
    (Event::Spawn { site: 0, func: 1 }, b"\x82\x40\x41"),
    (Event::Ret, b"\x83"),
    (Event::Sync, b"\x84"),
];

#[test]
fn each_event_has_its_item(rt: HostRuntime) -> Result<(), Fail> {
    for (event, item) in ITEMS {
        assert_eq!(rt; compact_of(rt.alloc(), *event)?.as_slice(), *item);
    }
    let greatest = Event::Strand { count: u64::MAX };
    let item = compact_of(rt.alloc(), greatest)?;
    let bytes = with_body(rt.alloc(), 1, item.as_slice())?;
    assert_eq!(rt; record(rt.alloc(), bytes.as_slice(), 0), Some(Ok(greatest)));
    Ok(())
}

/// Items that spell no event, and the first fault of each.
const BAD_ITEMS: &[(&[u8], EventFault)] = &[
    (b"", EventFault::Truncated),
    (b"\x41", EventFault::Tag),
    (b"\x85", EventFault::Tag),
    (b"\xff\x40", EventFault::Tag),
    (b"\x80", EventFault::Operand),
    // A zero in front, no last digit, and a number too many.
    (b"\x80\x00\x41", EventFault::Operand),
    (b"\x80\x01", EventFault::Operand),
    (b"\x80\x41\x41", EventFault::Operand),
    (b"\x83\x40", EventFault::Operand),
    (b"\x84\x00", EventFault::Operand),
    (b"\x82\x40", EventFault::Operand),
    // 2^64 instructions, and the site and the function 2^32.
    (
        b"\x80\x10\x00\x00\x00\x00\x00\x00\x00\x00\x00\x40",
        EventFault::Operand,
    ),
    (b"\x82\x04\x00\x00\x00\x00\x40\x40", EventFault::Operand),
    (b"\x81\x40\x04\x00\x00\x00\x00\x40", EventFault::Operand),
    (b"\x82\x41\x40", EventFault::Site),
    (b"\x81\x41\x42", EventFault::Site),
    (b"\x81\x40\x42", EventFault::Func),
];

#[test]
fn a_bad_item_has_its_first_fault(rt: HostRuntime) -> Result<(), Fail> {
    for (item, fault) in BAD_ITEMS {
        let bytes = with_body(rt.alloc(), 1, item)?;
        assert_eq!(rt; record(rt.alloc(), bytes.as_slice(), 0), Some(Err(*fault)));
        let read = read_in_turn(rt.alloc(), bytes.as_slice())?;
        assert_eq!(rt; read.get(0), Some(&Err(*fault)));
    }
    // A bad item is no hindrance to the next one.
    let bytes = with_body(rt.alloc(), 2, b"\x41\x80\x41")?;
    let read = read_in_turn(rt.alloc(), bytes.as_slice())?;
    assert!(rt;
        read.as_slice() == [Err(EventFault::Tag), Ok(Event::Strand { count: 1 })].as_slice()
    );
    Ok(())
}

#[test]
fn items_are_counted_and_not_their_bytes(rt: HostRuntime) -> Result<(), Fail> {
    let Some(body) = SMALL.get(BODY..) else {
        return Err("it has a body".into());
    };
    let fewer = with_body(rt.alloc(), 6, body)?;
    assert_eq!(rt;
        header_fault(rt.alloc(), fewer.as_slice()),
        Some(HeaderFault::Trailing)
    );
    let none = with_body(rt.alloc(), 0, b"\x00")?;
    assert_eq!(rt;
        header_fault(rt.alloc(), none.as_slice()),
        Some(HeaderFault::Trailing)
    );
    // One item may be longer than a record.
    let long = with_body(rt.alloc(), 1, &[0x7f; 160])?;
    assert_eq!(rt; header_fault(rt.alloc(), long.as_slice()), None);
    assert_eq!(rt;
        record(rt.alloc(), long.as_slice(), 0),
        Some(Err(EventFault::Tag))
    );
    Ok(())
}

/// After how many bytes of its body `SMALL` is cut off, and the position and the fault of the event that ends there.
const CUT_OFF: &[(usize, u32, EventFault)] = &[
    (0, 0, EventFault::Truncated),
    (1, 0, EventFault::Operand),
    (2, 1, EventFault::Truncated),
    (3, 1, EventFault::Operand),
    (4, 1, EventFault::Operand),
    (5, 2, EventFault::Truncated),
    (6, 2, EventFault::Operand),
    (7, 3, EventFault::Truncated),
    (8, 4, EventFault::Truncated),
    (9, 4, EventFault::Operand),
    (10, 5, EventFault::Truncated),
    (11, 6, EventFault::Truncated),
    (12, 6, EventFault::Operand),
];

#[test]
fn an_item_that_is_not_whole_is_told(rt: HostRuntime) -> Result<(), Fail> {
    for (len, at, fault) in CUT_OFF {
        let Some(bytes) = SMALL.get(..BODY + *len) else {
            return Err("it has a body".into());
        };
        assert_eq!(rt;
            record(rt.alloc(), bytes, *at),
            Some(Err(*fault)),
            "after {len}"
        );
        for i in *at + 1..7 {
            assert_eq!(rt;
                record(rt.alloc(), bytes, i),
                Some(Err(EventFault::Truncated)),
                "after {len}"
            );
        }
    }
    Ok(())
}

/// The first positions and numbers of events of the parts of a trace at these offsets, or why they are refused; or none
/// where the bytes open as no trace of version 2.
fn cut_counts(
    alloc: Global,
    bytes: &[u8],
    cuts: &[u64],
) -> Result<Option<Result<Vec<(u32, u32)>, CutFault>>, AllocError> {
    let Ok(trace) = open_trace(alloc, bytes) else {
        return Ok(None);
    };
    if trace.version() != 2 {
        return Ok(None);
    }
    let cut = match cut_bytes(alloc, &trace, cuts) {
        Ok(cut) => cut,
        Err(fault) => return Ok(Some(Err(fault))),
    };
    let mut counts = Vec::new(alloc);
    for part in cut.parts() {
        counts.push((part.first(), part.count()))?;
    }
    Ok(Some(Ok(counts)))
}

/// Whether the trace has these parts at these offsets.
fn is_cut(
    alloc: Global,
    bytes: &[u8],
    cuts: &[u64],
    parts: &[(u32, u32)],
) -> Result<bool, AllocError> {
    match cut_counts(alloc, bytes, cuts)? {
        Some(Ok(counts)) => Ok(counts.as_slice() == parts),
        _ => Ok(false),
    }
}

/// Whether these offsets into `SMALL` are refused so.
fn is_refused(alloc: Global, cuts: &[u64], fault: CutFault) -> Result<bool, AllocError> {
    match cut_counts(alloc, SMALL, cuts)? {
        Some(Err(told)) => Ok(told == fault),
        _ => Ok(false),
    }
}

#[test]
fn a_cut_within_an_item_moves_on(rt: HostRuntime) -> Result<(), Fail> {
    let offsets = [0, 1, 2, 3, 4, 5, 6, 7, 8, 9, 10, 11, 12, 13];
    let parts = [
        (0, 0),
        (0, 1),
        (1, 0),
        (1, 1),
        (2, 0),
        (2, 0),
        (2, 1),
        (3, 0),
        (3, 1),
        (4, 1),
        (5, 0),
        (5, 1),
        (6, 1),
        (7, 0),
        (7, 0),
    ];
    assert!(rt; is_cut(rt.alloc(), SMALL, &offsets, &parts)?);
    assert!(rt; is_cut(rt.alloc(), SMALL, &[3], &[(0, 2), (2, 5)])?);
    assert!(rt; is_cut(rt.alloc(), SMALL, &[12], &[(0, 7), (7, 0)])?);
    // Missing events are those of the last part.
    let Some(short) = SMALL.get(..BODY + 4) else {
        return Err("it has a body".into());
    };
    assert!(rt; is_cut(rt.alloc(), short, &[2, 4], &[(0, 1), (1, 1), (2, 5)])?);
    Ok(())
}

#[test]
fn the_first_bad_offset_is_told(rt: HostRuntime) -> Result<(), Fail> {
    assert!(rt; is_refused(rt.alloc(), &[2, 2], CutFault::NotRising { index: 1 })?);
    assert!(rt; is_refused(rt.alloc(), &[14], CutFault::OutOfRange { index: 0 })?);
    assert!(rt; is_refused(rt.alloc(), &[3, 2, 14], CutFault::NotRising { index: 1 })?);
    let zeros = vec![in rt.alloc(); 0; 65536]?;
    assert!(rt; is_refused(rt.alloc(), &zeros, CutFault::TooMany)?);
    let fewer = vec![in rt.alloc(); 0; 65535]?;
    assert!(rt; is_refused(rt.alloc(), &fewer, CutFault::NotRising { index: 1 })?);
    Ok(())
}

/// The bytes of a trace of 200 strands, the counts of which are 0 to 199.
fn many_strands(alloc: Global) -> Result<Vec<u8>, AllocError> {
    let mut body = Vec::new(alloc);
    for count in 0..200 {
        let item = compact_of(alloc, Event::Strand { count })?;
        body.extend_from_slice(item.as_slice())?;
    }
    with_body(alloc, 200, body.as_slice())
}

#[test]
fn events_of_many_are_read_in_any_order(rt: HostRuntime) -> Result<(), Fail> {
    let bytes = many_strands(rt.alloc())?;
    let Ok(trace) = open_trace(rt.alloc(), bytes.as_slice()) else {
        return Err("it opens".into());
    };
    assert!(rt; trace.count() == 200);
    for k in 0..trace.count() {
        let i = trace.count() - 1 - k;
        let count = u64::from(i);
        assert!(rt; trace.event_at(i) == Ok(Event::Strand { count }));
    }
    let read = read_in_turn(rt.alloc(), bytes.as_slice())?;
    for (i, event) in read.iter().enumerate() {
        let count = i as u64;
        assert!(rt; *event == Ok(Event::Strand { count }));
    }
    Ok(())
}
