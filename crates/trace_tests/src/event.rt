use spp_event::{
    Contents, Event, EventFault, HeaderFault, is_name, is_root_name, open_trace, record_of,
    trace_of,
};
use std::alloc::{AllocError, Global};
use std::test::Fail;

/// A trace of seven events: a strand of 1, a spawned child of 10, then 4, a sync and 2.
pub(crate) const SMALL: &[u8] =
    b"SPTRACE1\x00\x00\x00\x02\x00\x00\x00\x01\x00\x00\x00\x00\x00\x00\x00\x07\
\x00\x04main\x00\x01f\x00\x01A\
\x00\x00\x00\x00\x00\x00\x00\x00\x00\x00\x00\x00\x00\x00\x00\x01\
\x02\x00\x00\x00\x00\x00\x00\x00\x00\x00\x00\x01\x00\x00\x00\x00\
\x00\x00\x00\x00\x00\x00\x00\x00\x00\x00\x00\x00\x00\x00\x00\x0a\
\x03\x00\x00\x00\x00\x00\x00\x00\x00\x00\x00\x00\x00\x00\x00\x00\
\x00\x00\x00\x00\x00\x00\x00\x00\x00\x00\x00\x00\x00\x00\x00\x04\
\x04\x00\x00\x00\x00\x00\x00\x00\x00\x00\x00\x00\x00\x00\x00\x00\
\x00\x00\x00\x00\x00\x00\x00\x00\x00\x00\x00\x00\x00\x00\x00\x02";

pub(crate) const EVENTS: [Event; 7] = [
    Event::Strand { count: 1 },
    Event::Spawn { site: 0, func: 1 },
    Event::Strand { count: 10 },
    Event::Ret,
    Event::Strand { count: 4 },
    Event::Sync,
    Event::Strand { count: 2 },
];

/// Where the records of `SMALL` begin.
const BODY: usize = 36;

/// `SMALL` with another byte at one place.
fn edited(alloc: Global, at: usize, byte: u8) -> Result<Vec<u8>, AllocError> {
    let mut bytes = SMALL.to_vec(alloc)?;
    if let Some(place) = bytes.get_mut(at) {
        *place = byte;
    }
    Ok(bytes)
}

/// The fault that the trace's header has, or none.
pub(crate) fn header_fault(alloc: Global, bytes: &[u8]) -> Option<HeaderFault> {
    open_trace(alloc, bytes).err()
}

/// What stands at position `i` of the trace, or none where it doesn't open or has no such position.
pub(crate) fn record(alloc: Global, bytes: &[u8], i: u32) -> Option<Result<Event, EventFault>> {
    let trace = open_trace(alloc, bytes).ok()?;
    if i < trace.count() {
        Some(trace.event_at(i))
    } else {
        None
    }
}

/// The event at position `i` of the trace, where it opens and a good record stands there, read as a known one.
pub(crate) fn known(alloc: Global, bytes: &[u8], i: u32) -> Option<Event> {
    let trace = open_trace(alloc, bytes).ok()?;
    if i < trace.count() && trace.event_at(i).is_ok() {
        Some(trace.known_event(i))
    } else {
        None
    }
}

#[test]
fn a_small_trace_opens(rt: HostRuntime) -> Result<(), Fail> {
    assert_eq!(rt; SMALL.len(), 148);
    let Ok(trace) = open_trace(rt.alloc(), SMALL) else {
        return Err("it opens".into());
    };
    assert!(rt; trace.count() == 7 && trace.root() == 0);
    assert!(rt; trace.funcs() == 2 && trace.sites() == 1);
    trace.keeps_limits();
    assert_eq!(rt; trace.func_name(0), "main");
    assert_eq!(rt; trace.func_name(1), "f");
    assert_eq!(rt; trace.site_name(0), "A");
    for (i, event) in EVENTS.iter().enumerate() {
        assert_eq!(rt; record(rt.alloc(), SMALL, i as u32), Some(Ok(*event)));
        assert_eq!(rt; known(rt.alloc(), SMALL, i as u32), Some(*event));
    }
    Ok(())
}

#[test]
fn a_trace_is_written(rt: HostRuntime) -> Result<(), Fail> {
    assert_eq!(rt; trace_of(rt.alloc(), &EVENTS)?.as_slice(), SMALL);
    Ok(())
}

#[test]
fn events_of_other_sites_and_functions_are_told(rt: HostRuntime) {
    for (event, own) in [
        (Event::Call { site: 0, func: 1 }, true),
        (Event::Call { site: 1, func: 0 }, false),
        (Event::Spawn { site: 0, func: 2 }, false),
    ] {
        let contents = Contents {
            funcs: &[b"main".as_slice(), b"f".as_slice()],
            sites: &[b"A".as_slice()],
            root: 0,
            events: &[event],
        };
        assert_eq!(rt; contents.has_own_events(), own);
    }
}

/// Names, and whether each is a good one.
const NAMES: &[(&str, bool)] = &[
    ("", false),
    ("a name of ~", true),
    ("(root)", true),
    ("\u{1f}", false),
    ("\u{7f}", false),
    ("\u{e9}", false),
];

#[test]
fn a_name_is_printable_and_not_empty(rt: HostRuntime) {
    for (name, good) in NAMES {
        assert_eq!(rt; is_name(name.as_bytes()), *good, "{name}");
        assert_eq!(rt; is_root_name(name.as_bytes()), *name == "(root)");
    }
}

#[test]
fn each_event_has_its_spelling(rt: HostRuntime) {
    for (i, event) in EVENTS.iter().enumerate() {
        let at = BODY + 16 * i;
        assert_eq!(rt; SMALL.get(at..at + 16), Some(record_of(*event).as_slice()));
    }
    assert_eq!(rt;
        record_of(Event::Strand { count: u64::MAX }),
        [
            0, 0, 0, 0, 0, 0, 0, 0, 255, 255, 255, 255, 255, 255, 255, 255
        ]
    );
    assert_eq!(rt;
        record_of(Event::Call {
            site: 0x01020304,
            func: 0x05060708
        }),
        [1, 0, 0, 0, 1, 2, 3, 4, 5, 6, 7, 8, 0, 0, 0, 0]
    );
}

#[test]
fn a_header_that_ends_early_is_short(rt: HostRuntime) -> Result<(), Fail> {
    for len in [0, 23, 24, 25, 26, 29, 30, 31, 32, 33, 34, 35] {
        assert_eq!(rt;
            SMALL.get(..len).and_then(|b| header_fault(rt.alloc(), b)),
            Some(HeaderFault::Short),
            "at {len}"
        );
    }
    assert_eq!(rt;
        SMALL.get(..36).and_then(|b| header_fault(rt.alloc(), b)),
        None
    );
    // A site's name of 200 bytes, of which 113 are there.
    let bytes = edited(rt.alloc(), 34, 200)?;
    assert_eq!(rt;
        header_fault(rt.alloc(), bytes.as_slice()),
        Some(HeaderFault::Short)
    );
    Ok(())
}

/// Where another byte in `SMALL` makes which fault of its header.
const BAD_HEADERS: &[(usize, u8, HeaderFault)] = &[
    (7, b'3', HeaderFault::Magic),
    (11, 0, HeaderFault::Limits),
    (9, 1, HeaderFault::Limits),
    (13, 1, HeaderFault::Limits),
    (20, 16, HeaderFault::Limits),
    (19, 2, HeaderFault::RootFunc),
    (31, 0, HeaderFault::Name { number: 1 }),
    (31, 201, HeaderFault::Name { number: 1 }),
    (32, 0x1f, HeaderFault::Name { number: 1 }),
    (32, 0x7f, HeaderFault::Name { number: 1 }),
    (35, 0x80, HeaderFault::Name { number: 2 }),
    (23, 6, HeaderFault::Trailing),
];

#[test]
fn a_bad_header_has_its_first_fault(rt: HostRuntime) -> Result<(), Fail> {
    for (at, byte, fault) in BAD_HEADERS {
        let bytes = edited(rt.alloc(), *at, *byte)?;
        assert_eq!(rt;
            header_fault(rt.alloc(), bytes.as_slice()),
            Some(*fault),
            "{byte} at {at}"
        );
    }
    // Blanks, `~` and names of functions that are equal are good.
    for (at, byte) in [(32, 0x20), (32, 0x7e), (19, 1)] {
        let bytes = edited(rt.alloc(), at, byte)?;
        assert_eq!(rt;
            header_fault(rt.alloc(), bytes.as_slice()),
            None,
            "{byte} at {at}"
        );
    }
    Ok(())
}

/// Headers at each limit and one past it, without the names that they say follow: where the numbers are good, these are
/// what is missing.
const HEADERS_AT_LIMITS: &[(&[u8], HeaderFault)] = &[
    (
        b"SPTRACE1\x00\x01\x00\x00\x00\x01\x00\x00\x00\x00\xff\xff\x10\x00\x00\x00",
        HeaderFault::Short,
    ),
    (
        b"SPTRACE1\x00\x01\x00\x01\x00\x00\x00\x00\x00\x00\x00\x00\x00\x00\x00\x00",
        HeaderFault::Limits,
    ),
    (
        b"SPTRACE1\x00\x00\x00\x01\x00\x01\x00\x01\x00\x00\x00\x00\x00\x00\x00\x00",
        HeaderFault::Limits,
    ),
    (
        b"SPTRACE1\x00\x00\x00\x01\x00\x00\x00\x00\x00\x00\x00\x00\x10\x00\x00\x01",
        HeaderFault::Limits,
    ),
    (
        b"SPTRACE1\x00\x01\x00\x00\x00\x00\x00\x00\x00\x01\x00\x00\x00\x00\x00\x00",
        HeaderFault::RootFunc,
    ),
];

#[test]
fn limits_are_inclusive(rt: HostRuntime) {
    for (bytes, fault) in HEADERS_AT_LIMITS {
        assert_eq!(rt; header_fault(rt.alloc(), bytes), Some(*fault));
    }
}

#[test]
fn sites_are_told_apart(rt: HostRuntime) {
    let root = b"SPTRACE1\x00\x00\x00\x02\x00\x00\x00\x01\x00\x00\x00\x00\x00\x00\x00\x00\
\x00\x04main\x00\x01f\x00\x06(root)";
    assert_eq!(rt;
        header_fault(rt.alloc(), root.as_slice()),
        Some(HeaderFault::SameName { number: 2 })
    );
    let again = b"SPTRACE1\x00\x00\x00\x01\x00\x00\x00\x03\x00\x00\x00\x00\x00\x00\x00\x00\
\x00\x01A\x00\x01A\x00\x01B\x00\x01A";
    assert_eq!(rt;
        header_fault(rt.alloc(), again.as_slice()),
        Some(HeaderFault::SameName { number: 3 })
    );
    let functions = b"SPTRACE1\x00\x00\x00\x02\x00\x00\x00\x00\x00\x00\x00\x00\x00\x00\x00\x00\
\x00\x06(root)\x00\x06(root)";
    assert_eq!(rt; header_fault(rt.alloc(), functions.as_slice()), None);
}

/// Positions, and where in `SMALL` another byte makes which fault of the record there.
const BAD_RECORDS: &[(u32, usize, u8, EventFault)] = &[
    (0, 36, 5, EventFault::Tag),
    (0, 37, 1, EventFault::Padding),
    (0, 43, 1, EventFault::Padding),
    (1, 55, 1, EventFault::Padding),
    (1, 67, 1, EventFault::Padding),
    (1, 59, 1, EventFault::Site),
    (1, 63, 2, EventFault::Func),
    (3, 88, 1, EventFault::Padding),
    (5, 118, 1, EventFault::Padding),
    (5, 131, 1, EventFault::Padding),
];

#[test]
fn a_bad_record_has_its_first_fault(rt: HostRuntime) -> Result<(), Fail> {
    for (i, at, byte, fault) in BAD_RECORDS {
        let bytes = edited(rt.alloc(), *at, *byte)?;
        assert_eq!(rt;
            record(rt.alloc(), bytes.as_slice(), *i),
            Some(Err(*fault)),
            "{byte} at {at}"
        );
    }
    Ok(())
}

#[test]
fn a_record_that_is_not_whole_is_truncated(rt: HostRuntime) {
    let Some(bytes) = SMALL.get(..BODY + 39) else {
        return;
    };
    assert_eq!(rt;
        record(rt.alloc(), bytes, 1),
        Some(Ok(Event::Spawn { site: 0, func: 1 }))
    );
    for i in 2..7 {
        assert_eq!(rt;
            record(rt.alloc(), bytes, i),
            Some(Err(EventFault::Truncated))
        );
    }
    assert_eq!(rt; record(rt.alloc(), bytes, 7), None);
}
