use spp_cut::{CutFault, Parts, cut_at, cut_even};
use spp_event::{Event, open_trace, record_of};
use std::alloc::{AllocError, Global};
use std::test::Fail;

/// The bytes of a trace of seven strands, the counts of which are 0 to 6.
pub(crate) fn seven_strands(alloc: Global) -> Result<Vec<u8>, AllocError> {
    let mut bytes =
        b"SPTRACE1\x00\x00\x00\x01\x00\x00\x00\x00\x00\x00\x00\x00\x00\x00\x00\x07\x00\x04main".to_vec(
            alloc,
        )?;
    for count in 0..7 {
        bytes.extend_from_slice(&record_of(Event::Strand { count }))?;
    }
    Ok(bytes)
}

/// Whether so many even parts of the seven have these numbers of events.
fn is_even_cut(alloc: Global, parts: u32, counts: &[u32]) -> Result<bool, AllocError> {
    let Some(parts) = Parts::new(parts) else {
        return Ok(false);
    };
    let bytes = seven_strands(alloc)?;
    let Ok(trace) = open_trace(alloc, bytes.as_slice()) else {
        return Ok(false);
    };
    let cut = cut_even(alloc, &trace, parts)?;
    let mut told = Vec::new(alloc);
    for part in cut.parts() {
        told.push(part.count())?;
    }
    Ok(told.as_slice() == counts)
}

/// The first positions and numbers of events of the parts of the seven at these cuts, or why they are refused; or none
/// where the bytes open as no trace.
fn cut_counts(
    alloc: Global,
    cuts: &[u32],
) -> Result<Option<Result<Vec<(u32, u32)>, CutFault>>, AllocError> {
    let bytes = seven_strands(alloc)?;
    let Ok(trace) = open_trace(alloc, bytes.as_slice()) else {
        return Ok(None);
    };
    let cut = match cut_at(alloc, &trace, cuts) {
        Ok(cut) => cut,
        Err(fault) => return Ok(Some(Err(fault))),
    };
    let mut counts = Vec::new(alloc);
    for part in cut.parts() {
        counts.push((part.first(), part.count()))?;
    }
    Ok(Some(Ok(counts)))
}

/// Whether these cuts make these parts.
fn is_cut(alloc: Global, cuts: &[u32], parts: &[(u32, u32)]) -> Result<bool, AllocError> {
    match cut_counts(alloc, cuts)? {
        Some(Ok(counts)) => Ok(counts.as_slice() == parts),
        _ => Ok(false),
    }
}

/// Whether these cuts are refused so.
fn is_refused(alloc: Global, cuts: &[u32], fault: CutFault) -> Result<bool, AllocError> {
    match cut_counts(alloc, cuts)? {
        Some(Err(told)) => Ok(told == fault),
        _ => Ok(false),
    }
}

/// What the events of the parts at these cuts say, one digit for each, or none where there are no such parts.
fn digits_at(alloc: Global, cuts: &[u32]) -> Result<Option<u64>, AllocError> {
    let bytes = seven_strands(alloc)?;
    let Ok(trace) = open_trace(alloc, bytes.as_slice()) else {
        return Ok(None);
    };
    let Ok(cut) = cut_at(alloc, &trace, cuts) else {
        return Ok(None);
    };
    let mut digits: u64 = 0;
    for part in cut.parts() {
        for k in 0..part.count() {
            if let Ok(Event::Strand { count }) = part.event_at(k) {
                digits = digits.wrapping_mul(10).wrapping_add(count);
            }
        }
    }
    Ok(Some(digits))
}

#[test]
fn even_parts_differ_by_one_event_at_most(rt: HostRuntime) -> Result<(), Fail> {
    assert!(rt; is_even_cut(rt.alloc(), 3, &[2, 2, 3])?);
    assert!(rt; is_even_cut(rt.alloc(), 10, &[0, 1, 1, 0, 1, 1, 0, 1, 1, 1])?);
    Ok(())
}

#[test]
fn a_number_of_parts_has_bounds(rt: HostRuntime) {
    assert!(rt; Parts::new(0).is_none() && Parts::new(65537).is_none());
    assert_eq!(rt; Parts::new(1).map(Parts::number), Some(1));
    assert_eq!(rt; Parts::new(Parts::MOST).map(Parts::number), Some(65536));
    assert_eq!(rt; Parts::default().number(), 16);
}

#[test]
fn parts_begin_at_the_cuts(rt: HostRuntime) -> Result<(), Fail> {
    assert!(rt; is_cut(rt.alloc(), &[0, 7], &[(0, 0), (0, 7), (7, 0)])?);
    assert!(rt; is_cut(rt.alloc(), &[], &[(0, 7)])?);
    assert_eq!(rt; digits_at(rt.alloc(), &[2, 5])?, Some(123456));
    Ok(())
}

#[test]
fn the_first_bad_cut_is_told(rt: HostRuntime) -> Result<(), Fail> {
    assert!(rt; is_refused(rt.alloc(), &[2, 2], CutFault::NotRising { index: 1 })?);
    assert!(rt; is_refused(rt.alloc(), &[8], CutFault::OutOfRange { index: 0 })?);
    assert!(rt; is_refused(rt.alloc(), &[3, 2, 8], CutFault::NotRising { index: 1 })?);
    // 65,536 cuts make one part too many; with one cut less their order is looked at.
    let zeros = vec![in rt.alloc(); 0; 65536]?;
    assert!(rt; is_refused(rt.alloc(), &zeros, CutFault::TooMany)?);
    let fewer = vec![in rt.alloc(); 0; 65535]?;
    assert!(rt; is_refused(rt.alloc(), &fewer, CutFault::NotRising { index: 1 })?);
    Ok(())
}
