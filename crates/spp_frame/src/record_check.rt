//! Checking the events of a trace that come piece by piece.

ghost use Rattle.std.specs.Prelude.{◌≡◌, ◌+◌, ◌*◌, ◌/◌, ◌≤◌, ◌<◌, ◌^◌, ◌++◌, List, [], length, IfOk, IfErr, MatchResult};
ghost use Rattle.spp_event.specs.declared.version.Version.TheVariants.{One, Two};
ghost use Rattle.spp_event.specs.Items.{items};
ghost use Rattle.spp_event.specs.Recordings.{Record, count_in, records_of};
ghost use Rattle.spp_frame.specs.Nesting.{IsWellFormed, IsFirstBad, work};
ghost use Rattle.spp_frame.specs.Pieces.{Far, IsBadIn};

use crate::frames::Frames;
use crate::{Fault, Why};
use spp_event::{BytesReader, EventFault, ItemReader, RecordReader, items_in};

/// The bytes of a record.
const RECORD: usize = 16;

/// The frames behind the `count` whole events of these bytes, the first of which has the position `at`, by a reader that
/// stands at it.
///
/// # Errors
///
/// The first bad event.
#[inline(always)]
fn walk<B: BytesReader>(
    before: Frames,
    at: u32,
    bytes: &[u8],
    count: u32,
    sites: u32,
    funcs: u32,
    mut reader: B,
) -> Result<Frames, Fault>
    requires counted { count ≡ count_in B.version bytes.now }
    requires here { B.stands reader bytes.now 0 }
    requires room { at + count < 2 ^ 32 }
    requires deep { before.depth ≤ at }
    requires small { before.work ≤ 18446744073709551616 * at }
    ensures deep { IfOk result (λ f. f.depth ≤ at + count) }
    ensures small { IfOk result (λ f. f.work ≤ 18446744073709551616 * (at + count)) }
    ensures seen { (rs : List Record) → length rs ≡ at → Far rs (length rs) before.depth before.work
        → let all = rs ++ records_of B.version sites funcs count bytes.now in
        MatchResult result (λ f. Far all (length all) f.depth f.work) (λ fault. IsBadIn all fault) }
{
    let mut frames = before;
    for k in 0..count {
        if let Err(why) = frames.take(reader.read_in(bytes, k, sites, funcs)) {
            return Err(Fault { at: at + k, why });
        }
    }
    Ok(frames)
}

/// Checks the events of a trace of either version that come piece by piece, as [`check`](crate::check) does those of an
/// opened trace. It keeps none of them.
#[derive(Clone, Copy)]
pub struct RecordCheck {
    at: u32,
    frames: Frames,
    bad: Option<Fault>,
    ghost deep: { frames.depth ≤ at },
    ghost small: { frames.work ≤ 18446744073709551616 * at },
}

impl RecordCheck {
    ghost use Rattle.spp_frame.specs.RecordChecks.{HasSeen, EndsWith, seen_by};

    /// A check that has seen no record.
    pub fn new() -> RecordCheck
        ensures { HasSeen result [] }
    {
        RecordCheck {
            at: 0,
            frames: Frames::ROOT,
            bad: None,
        }
    }

    /// The check behind the `count` whole events of these bytes as well, by a reader that stands at the first of them.
    #[inline(always)]
    fn followed_by_events<B: BytesReader>(
        self,
        bytes: &[u8],
        count: u32,
        sites: u32,
        funcs: u32,
        reader: B,
    ) -> RecordCheck
        requires counted { count ≡ count_in B.version bytes.now }
        requires here { B.stands reader bytes.now 0 }
        requires room { seen_by self + count < 2 ^ 32 }
        ensures count { seen_by result ≡ seen_by self + count }
        ensures seen { (rs : List Record) → HasSeen self rs → HasSeen result (rs ++ records_of B.version sites funcs count bytes.now) }
    {
        let RecordCheck { at, frames, bad } = self;
        let behind = at + count;
        if let Some(fault) = bad {
            return RecordCheck {
                at: behind,
                frames,
                bad: Some(fault),
            };
        }
        let walked = match walk(frames, at, bytes, count, sites, funcs, reader) {
            Ok(walked) => walked,
            Err(fault) => {
                return RecordCheck {
                    at: behind,
                    frames,
                    bad: Some(fault),
                };
            }
        };
        RecordCheck {
            at: behind,
            frames: walked,
            bad: None,
        }
    }

    /// The check behind the whole records of these bytes as well, in a trace of so many sites and functions. The time is
    /// linear in them, or constant where a bad event was seen already.
    #[inline(never)]
    pub fn followed_by(self, bytes: &[u8], sites: u32, funcs: u32) -> RecordCheck
        requires { seen_by self + length bytes.now / 16 < 2 ^ 32 }
        ensures count { seen_by result ≡ seen_by self + length bytes.now / 16 }
        ensures seen { (rs : List Record) → HasSeen self rs → HasSeen result (rs ++ records_of One sites funcs (length bytes.now / 16) bytes.now) }
    {
        let count = (bytes.len() / RECORD) as u32;
        self.followed_by_events(bytes, count, sites, funcs, RecordReader)
    }

    /// The check behind the items of version 2 of these bytes as well, as [`RecordCheck::followed_by`]. The time is linear
    /// in these bytes.
    #[inline(never)]
    pub fn followed_by_items(self, bytes: &[u8], sites: u32, funcs: u32) -> RecordCheck
        requires { seen_by self + length (items bytes.now) < 2 ^ 32 }
        ensures count { seen_by result ≡ seen_by self + length (items bytes.now) }
        ensures seen { (rs : List Record) → HasSeen self rs → HasSeen result (rs ++ records_of Two sites funcs (length (items bytes.now)) bytes.now) }
    {
        let count = items_in(bytes) as u32;
        self.followed_by_events(bytes, count, sites, funcs, ItemReader::at_front())
    }

    /// The work of a well-formed trace of `count` records, where all of them were seen. Where fewer were, the bytes end
    /// before the next one does, and it is told as cut off.
    ///
    /// # Errors
    ///
    /// The first bad event.
    pub fn end(self, count: u32) -> Result<u128, Fault>
        requires { seen_by self ≤ count }
        ensures work { (rs : List Record) → EndsWith self rs → length rs ≡ count → IfOk result (λ w. IsWellFormed rs × (w ≡ work rs)) }
        ensures fault { (rs : List Record) → EndsWith self rs → length rs ≡ count → IfErr result (λ f. IsFirstBad rs f) }
    {
        let RecordCheck { at, frames, bad } = self;
        if let Some(fault) = bad {
            return Err(fault);
        }
        if at < count {
            return Err(Fault {
                at,
                why: Why::Event(EventFault::Truncated),
            });
        }
        frames.end(count)
    }
}
