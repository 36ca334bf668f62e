//! The bytes of a trace, written as its events come.

ghost use Rattle.std.specs.Prelude.{◌≡◌, ◌≤◌, ◌++◌, length, take, drop, OnOk, OnErr};
ghost use Rattle.std.specs.Int.{to_be_bytes, w64};
ghost use Rattle.spp_event.specs.Records.{spelling, word, IsEvent};

use spp_event::Event;
use std::alloc::AllocError;

/// What a number is multiplied by to stand before another of 32 bits.
const WORD: u64 = 0x1_0000_0000;

/// The first half of the record of a call, but for the number of its site.
const CALL: u64 = 0x0100_0000_0000_0000;

/// The first half of the record of a spawn, but for the number of its site.
const SPAWN: u64 = 0x0200_0000_0000_0000;

/// The first half of the record of a return.
const RET: u64 = 0x0300_0000_0000_0000;

/// The first half of the record of a sync.
const SYNC: u64 = 0x0400_0000_0000_0000;

/// Where the bytes of a trace say how many events it has.
const COUNT: usize = 20;

/// The two halves of the record of an event, each as the number of its eight bytes, the highest first. Written so, a
/// record takes two stores; byte by byte it would take sixteen.
#[inline(always)]
fn halves_of(event: Event) -> (u64, u64)
    requires { IsEvent event }
    ensures { spelling event ≡ to_be_bytes w64 result.0 ++ to_be_bytes w64 result.1 }
{
    match event {
        Event::Strand { count } => (0, count),
        Event::Call { site, func } => (CALL + u64::from(site), u64::from(func) * WORD),
        Event::Spawn { site, func } => (SPAWN + u64::from(site), u64::from(func) * WORD),
        Event::Ret => (RET, 0),
        Event::Sync => (SYNC, 0),
    }
}

/// Adds the record of an event: 16 bytes. Where an allocation failed, nothing is added.
#[inline(always)]
pub(crate) fn push_record(bytes: &mut Vec<u8>, event: Event) -> Result<(), AllocError>
    requires { IsEvent event }
    ensures pushed { OnOk result (bytes.new.items ≡ bytes.old.items ++ spelling event) }
    ensures stays { OnErr result (bytes.new.items ≡ bytes.old.items) }
{
    let (front, back) = halves_of(event);
    bytes.reserve(16)?;
    bytes.extend_from_slice(front.to_be_bytes().as_slice())?;
    bytes.extend_from_slice(back.to_be_bytes().as_slice())
}

/// Writes into the bytes of a trace how many events it has.
pub(crate) fn set_count(bytes: &mut [u8], count: u32)
    requires { 24 ≤ length bytes.old }
    ensures { bytes.new ≡ take 20 bytes.old ++ (word count ++ drop 24 bytes.old) }
{
    bytes[COUNT..COUNT + 4].copy_from_slice(count.to_be_bytes().as_slice());
}
