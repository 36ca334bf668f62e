//! Comparisons whose names all collide: each call site is told by its name, whatever its hash is.

use spp_dag::Figures;
use spp_event::open_trace;
use spp_report::{CompareRow, Named, Run, compare};
use spp_site::{Profile, Table};
use std::alloc::Global;
use std::hash::{BuildHasher, Hasher};
use std::test::Fail;

/// Gives everything the same hash.
#[derive(Clone, Copy, Drop)]
struct Collides;

impl Hasher for Collides {
    ghost write = { λ h _. h };

    ghost finish = { λ _. 7 };

    fn finish(&self) -> u64 {
        7
    }

    fn write(&mut self, _bytes: &[u8]) {}
}

impl BuildHasher for Collides {
    type Hasher = Collides;

    ghost build_hasher = { λ s. s };

    fn build_hasher(&self) -> Collides {
        *self
    }
}

/// A trace without events, with the sites `A`, `B` and `C`, and one with `D`, `B` and `A`.
const BEFORE: &[u8] = b"SPTRACE1\x00\x00\x00\x01\x00\x00\x00\x03\x00\x00\x00\x00\x00\x00\x00\x00\
\x00\x04main\x00\x01A\x00\x01B\x00\x01C";

const AFTER: &[u8] = b"SPTRACE1\x00\x00\x00\x01\x00\x00\x00\x03\x00\x00\x00\x00\x00\x00\x00\x00\
\x00\x04main\x00\x01D\x00\x01B\x00\x01A";

/// A profile without rows.
fn no_rows(alloc: Global) -> Profile {
    Profile {
        figures: Figures {
            work: 0,
            span: 0,
            burdened: 0,
        },
        dag: Table::new(alloc),
        path: Table::new(alloc),
        burdened_path: Table::new(alloc),
    }
}

/// What is compared of the run of these bytes; none where they are no trace.
fn run_of(alloc: Global, bytes: &[u8]) -> Option<Run<Collides>> {
    let trace = open_trace(alloc, bytes).ok()?;
    let named = Named {
        trace: &trace,
        profile: &no_rows(alloc),
    };
    Run::new(alloc, Collides, &named).ok()
}

/// Whether the row is of this name, and has cells in these runs.
fn tells(row: &CompareRow<'_>, name: &str, before: bool, after: bool) -> bool {
    row.name == name && row.before.is_some() == before && row.after.is_some() == after
}

#[test]
fn names_that_collide_are_told_apart(rt: HostRuntime) -> Result<(), Fail> {
    let alloc = rt.alloc();
    let (Some(before), Some(after)) = (run_of(alloc, BEFORE), run_of(alloc, AFTER)) else {
        return Err("they are traces".into());
    };
    let rows = compare(alloc, &before, &after)?;
    let wanted = [
        ("(root)", true, true),
        ("A", true, true),
        ("B", true, true),
        ("C", true, false),
        ("D", false, true),
    ];
    assert_eq!(rt; rows.len(), wanted.len());
    for (row, (name, before, after)) in rows.iter().zip(&wanted) {
        assert!(rt; tells(row, *name, *before, *after), "{name}");
    }
    Ok(())
}
