//! `read_within`, `read_all` and `write_out` over devices of all kinds.
ghost use Rattle.std.specs.Prelude.{◌≡◌, IfOk};

use super::fakes::{Busy, Cup, dripping, empty_cup, failing};
use spp_report::{OutSink, Sink, WriteFault, write_out};
use spp_shell::{InSource, ReadFault, Source, read_all, read_within};
use std::alloc::Global;
use std::io;
use std::io::{ErrorKind, Read, Write};
use std::test::Fail;

const TEXT: &[u8] = b"work 17\n";

/// The bytes, read from memory through the source of std's readers: what comes is exactly what was there.
fn copied(alloc: Global, bytes: &[u8]) -> Result<Vec<u8>, ReadFault>
    ensures { IfOk result (λ all. all.items ≡ bytes.now) }
{
    let mut source = InSource::new(bytes);
    match read_all(alloc, &mut source) {
        Ok(all) => Ok(all),
        Err(fault) => Err(fault),
    }
}

/// The text, written into memory through the sink of std's writers: what is there is exactly the text.
fn written(alloc: Global, text: &[u8]) -> Result<Vec<u8>, WriteFault>
    ensures { IfOk result (λ bytes. bytes.items ≡ text.now) }
{
    let mut sink = OutSink::new(Vec::new(alloc));
    match write_out(&mut sink, text) {
        Ok(()) => Ok(sink.into_inner()),
        Err(fault) => Err(fault),
    }
}

/// One of std's writers that is interrupted a number of times before each write and each flush, and then takes one
/// byte, or none at all.
#[derive(Drop)]
struct Balky {
    interrupted: u8,
    times: u8,
    takes: usize,
}

impl Balky {
    fn is_interrupted(&mut self) -> bool {
        let again = self.interrupted < self.times;
        self.interrupted = if again {
            self.interrupted.saturating_add(1)
        } else {
            0
        };
        again
    }
}

impl Write for Balky {
    fn write(&mut self, buf: &[u8]) -> io::Result<usize> {
        if self.is_interrupted() {
            return Err(ErrorKind::Interrupted.into());
        }
        Ok(buf.len().min(self.takes))
    }

    fn flush(&mut self) -> io::Result<()> {
        if self.is_interrupted() {
            return Err(ErrorKind::Interrupted.into());
        }
        Ok(())
    }
}

/// One of std's writers that takes all, and counts its flushes or fails at them.
#[derive(Drop)]
struct Flushed {
    flushes: u32,
    fails: bool,
}

impl Write for Flushed {
    fn write(&mut self, buf: &[u8]) -> io::Result<usize> {
        Ok(buf.len())
    }

    fn flush(&mut self) -> io::Result<()> {
        if self.fails {
            return Err(ErrorKind::Other.into());
        }
        self.flushes = self.flushes.saturating_add(1);
        Ok(())
    }
}

/// One of std's readers that gives one byte at a time, and is interrupted before each.
#[derive(Drop)]
struct Stutter<'a> {
    bytes: &'a [u8],
    is_ready: bool,
}

impl Read for Stutter<'_> {
    fn read(&mut self, buf: &mut [u8]) -> io::Result<usize> {
        self.is_ready = !self.is_ready;
        if !self.is_ready {
            return Err(ErrorKind::Interrupted.into());
        }
        let (Some(place), Some((first, rest))) = (buf.first_mut(), self.bytes.split_first()) else {
            return Ok(0);
        };
        *place = *first;
        self.bytes = rest;
        Ok(1)
    }
}

/// A reader of these bytes, as the last one is.
fn stuttering(bytes: &[u8]) -> Stutter<'_> {
    Stutter {
        bytes,
        is_ready: true,
    }
}

/// One of std's readers and writers that fails once, by an error that is no interruption; then it is at its end, or takes
/// all.
#[derive(Drop)]
struct Failing {
    failed: bool,
}

impl Failing {
    fn fail_once(&mut self) -> io::Result<()> {
        if self.failed {
            return Ok(());
        }
        self.failed = true;
        Err(ErrorKind::Other.into())
    }
}

impl Read for Failing {
    fn read(&mut self, _buf: &mut [u8]) -> io::Result<usize> {
        self.fail_once()?;
        Ok(0)
    }
}

impl Write for Failing {
    fn write(&mut self, buf: &[u8]) -> io::Result<usize> {
        self.fail_once()?;
        Ok(buf.len())
    }

    fn flush(&mut self) -> io::Result<()> {
        self.fail_once()
    }
}

fn interrupted_sink(times: u8, takes: usize) -> OutSink<Balky> {
    OutSink::new(Balky {
        interrupted: 0,
        times,
        takes,
    })
}

/// How many bytes are read within the bounds, or why not all.
fn read_len<S: Source>(
    alloc: Global,
    source: &mut S,
    most: u64,
    turns: u64,
) -> Result<usize, ReadFault> {
    Ok(read_within(alloc, source, most, turns)?.len())
}

#[test]
fn reading_ends_within_its_bounds(rt: HostRuntime) {
    for (bytes, most, turns, wanted) in [
        (b"abcd".as_slice(), 4, 100, Ok(4)),
        (b"abcde".as_slice(), 4, 100, Err(ReadFault::TooLong)),
        (b"ab".as_slice(), 100, 3, Ok(2)),
        (b"abc".as_slice(), 100, 3, Err(ReadFault::TooLong)),
        (b"".as_slice(), 0, 1, Ok(0)),
        (b"".as_slice(), 0, 0, Err(ReadFault::TooLong)),
    ] {
        assert_eq!(rt;
            read_len(rt.alloc(), &mut dripping(bytes), most, turns),
            wanted,
            "most {most} turns {turns}"
        );
    }
    assert_eq!(rt;
        read_len(rt.alloc(), &mut Busy, 100, 1000),
        Err(ReadFault::TooLong)
    );
}

#[test]
fn a_source_that_fails_is_a_device_fault(rt: HostRuntime) {
    for fails_at in 0..4u64 {
        let mut source = failing(b"abc".as_slice(), fails_at);
        assert!(rt;
            matches!(read_all(rt.alloc(), &mut source), Err(ReadFault::Device)),
            "at {fails_at}"
        );
        assert_eq!(rt; source.failures(), 1);
        assert_eq!(rt; source.reads, fails_at + 1);
    }
}

#[test]
fn all_is_read_up_to_the_end(rt: HostRuntime) -> Result<(), Fail> {
    let Ok(all) = read_all(rt.alloc(), &mut dripping(TEXT)) else {
        return Err("read".into());
    };
    assert_eq!(rt; all.as_slice(), TEXT);
    let Ok(all) = copied(rt.alloc(), TEXT) else {
        return Err("copied".into());
    };
    assert_eq!(rt; all.as_slice(), TEXT);
    Ok(())
}

#[test]
fn a_sink_that_fails_has_taken_the_first_bytes(rt: HostRuntime) {
    for room in 0..8usize {
        for sip in 1..9usize {
            let mut sink = Cup {
                sip,
                ..empty_cup(rt.alloc(), room)
            };
            assert_eq!(rt;
                write_out(&mut sink, TEXT),
                Err(WriteFault::Device { written: room }),
                "at {room} by {sip}"
            );
            assert_eq!(rt; sink.taken.as_slice(), &TEXT[..room]);
            assert_eq!(rt; sink.failures(), 1);
        }
    }
}

#[test]
fn a_sink_with_room_takes_all_once(rt: HostRuntime) -> Result<(), Fail> {
    let mut sink = empty_cup(rt.alloc(), 8);
    assert!(rt; write_out(&mut sink, TEXT).is_ok());
    assert_eq!(rt; sink.taken.as_slice(), TEXT);
    assert_eq!(rt; sink.failures(), 0);
    let Ok(bytes) = written(rt.alloc(), TEXT) else {
        return Err("written".into());
    };
    assert_eq!(rt; bytes.as_slice(), TEXT);
    Ok(())
}

#[test]
fn a_finish_that_fails_tells_the_whole_length(rt: HostRuntime) {
    let mut open = Cup {
        shuts: false,
        ..empty_cup(rt.alloc(), 100)
    };
    assert_eq!(rt;
        write_out(&mut open, TEXT),
        Err(WriteFault::Device { written: 8 })
    );
    assert_eq!(rt; open.taken.as_slice(), TEXT);
}

#[test]
fn interruptions_are_borne_up_to_64_in_a_row(rt: HostRuntime) {
    let mut patient = interrupted_sink(64, 1);
    assert!(rt; write_out(&mut patient, TEXT).is_ok());
    assert_eq!(rt; patient.failures(), 0);
    let mut impatient = interrupted_sink(65, 1);
    assert_eq!(rt;
        write_out(&mut impatient, TEXT),
        Err(WriteFault::Device { written: 0 })
    );
    assert_eq!(rt; impatient.failures(), 1);
    let mut full = interrupted_sink(0, 0);
    assert_eq!(rt;
        write_out(&mut full, TEXT),
        Err(WriteFault::Device { written: 0 })
    );
    assert_eq!(rt; full.failures(), 1);
}

#[test]
fn a_whole_text_is_flushed_once(rt: HostRuntime) {
    let mut sink = OutSink::new(Flushed {
        flushes: 0,
        fails: false,
    });
    assert!(rt; write_out(&mut sink, TEXT).is_ok());
    assert_eq!(rt; sink.into_inner().flushes, 1);
    let mut sink = OutSink::new(Flushed {
        flushes: 0,
        fails: true,
    });
    assert_eq!(rt;
        write_out(&mut sink, TEXT),
        Err(WriteFault::Device { written: 8 })
    );
    assert_eq!(rt; sink.failures(), 1);
    // A flush that is interrupted too often fails, though no write was.
    let mut sink = interrupted_sink(65, 1);
    assert!(rt; sink.finish().is_err());
    let mut sink = interrupted_sink(64, 1);
    assert!(rt; sink.finish().is_ok());
}

#[test]
fn what_fails_without_an_interruption_is_not_tried_again(rt: HostRuntime) {
    let mut source = InSource::new(Failing { failed: false });
    assert!(rt; matches!(read_all(rt.alloc(), &mut source), Err(ReadFault::Device)));
    assert_eq!(rt; source.failures(), 1);
    let mut sink = OutSink::new(Failing { failed: false });
    assert_eq!(rt;
        write_out(&mut sink, TEXT),
        Err(WriteFault::Device { written: 0 })
    );
    assert_eq!(rt; sink.failures(), 1);
    let mut sink = OutSink::new(Failing { failed: false });
    assert!(rt; sink.finish().is_err());
    assert_eq!(rt; sink.failures(), 1);
}

#[test]
fn a_reader_that_is_interrupted_is_read_on(rt: HostRuntime) -> Result<(), Fail> {
    let mut source = InSource::new(stuttering(TEXT));
    let Ok(all) = read_all(rt.alloc(), &mut source) else {
        return Err("read".into());
    };
    assert_eq!(rt; all.as_slice(), TEXT);
    assert_eq!(rt; source.failures(), 0);
    Ok(())
}

/// What a source of the eight bytes of `TEXT` may say of their number: nothing, too little, the truth, too much, and
/// more than there is memory for.
const HINTS: &[Option<u64>] = &[
    None,
    Some(0),
    Some(7),
    Some(8),
    Some(9),
    Some(1_000_000),
    Some(u64::MAX),
];

#[test]
fn a_hint_changes_nothing_of_what_is_read(rt: HostRuntime) -> Result<(), Fail> {
    for hint in HINTS {
        let mut source = InSource::with_hint(TEXT, *hint);
        assert_eq!(rt; source.hint(), *hint);
        let Ok(all) = read_all(rt.alloc(), &mut source) else {
            return Err("read".into());
        };
        assert_eq!(rt; all.as_slice(), TEXT, "hint {hint:?}");
        let mut source = InSource::with_hint(stuttering(TEXT), *hint);
        let Ok(all) = read_all(rt.alloc(), &mut source) else {
            return Err("read byte by byte".into());
        };
        assert_eq!(rt; all.as_slice(), TEXT, "hint {hint:?}");
    }
    assert_eq!(rt; InSource::new(TEXT).hint(), None);
    assert_eq!(rt; dripping(TEXT).hint(), None);
    Ok(())
}

#[test]
fn a_hint_changes_no_bound(rt: HostRuntime) {
    for hint in HINTS {
        for (most, wanted) in [
            (0, Err(ReadFault::TooLong)),
            (7, Err(ReadFault::TooLong)),
            (8, Ok(8)),
            (9, Ok(8)),
            (u64::MAX, Ok(8)),
        ] {
            assert_eq!(rt;
                read_len(rt.alloc(), &mut InSource::with_hint(TEXT, *hint), most, 100),
                wanted,
                "hint {hint:?} most {most}"
            );
        }
    }
}

/// The room for what is read of so many bytes with this hint, or why not all are read.
fn room_for(alloc: Global, count: u64, hint: Option<u64>) -> Result<usize, ReadFault> {
    let mut source = InSource::with_hint(io::repeat(7).take(count), hint);
    Ok(read_within(alloc, &mut source, 2_000_000, 2_000_000)?.capacity())
}

#[test]
fn room_is_made_once_by_the_hint_or_grows_by_a_quarter(rt: HostRuntime) {
    // What was hinted, and a piece, which is 65,536 bytes.
    for hint in [1_000_000, 1_000_001, 2_000_000] {
        assert_eq!(rt;
            room_for(rt.alloc(), 1_000_000, Some(hint)),
            Ok(usize::try_from(hint).unwrap_or(0).saturating_add(65536))
        );
    }
    // Never more than is allowed, and a piece; and the piece alone where nothing comes.
    assert_eq!(rt; room_for(rt.alloc(), 0, Some(u64::MAX)), Ok(2_065_536));
    assert_eq!(rt; room_for(rt.alloc(), 0, Some(0)), Ok(65536));
    assert_eq!(rt; room_for(rt.alloc(), 0, None), Ok(65536));
    // Else at most a quarter and a piece more than was read.
    for hint in [None, Some(0), Some(100)] {
        let Ok(room) = room_for(rt.alloc(), 1_000_000, hint) else {
            panic!(rt; "hint {hint:?}");
        };
        assert!(rt; 1_000_000 < room && room < 1_315_536, "{room}");
    }
    assert_eq!(rt;
        room_for(rt.alloc(), 2_000_001, Some(1)),
        Err(ReadFault::TooLong)
    );
}
