use spp_site::{ClosedFrame, EmptySums, KnownRow, Marks, NarrowRow, NarrowTable, Row, Table};
use std::test::Fail;

/// The row `1 10 | 1 10 10 | 1 10 10`.
const TEN: Row = Row {
    count: 1,
    local: 10,
    site_count: 1,
    site_work: 10,
    site_span: 10,
    caller_count: 1,
    caller_work: 10,
    caller_span: 10,
};

/// The row `2 20 | 2 20 20 | 2 20 20`.
const TWENTY: Row = Row {
    count: 2,
    local: 20,
    site_count: 2,
    site_work: 20,
    site_span: 20,
    caller_count: 2,
    caller_work: 20,
    caller_span: 20,
};

/// The row `3 30 | 2 20 20 | 1 10 10`.
const MIXED: Row = Row {
    count: 3,
    local: 30,
    site_count: 2,
    site_work: 20,
    site_span: 20,
    caller_count: 1,
    caller_work: 10,
    caller_span: 10,
};

/// The sum of `TEN` and `MIXED`, `4 40 | 3 30 30 | 2 20 20`.
const TEN_AND_MIXED: Row = Row {
    count: 4,
    local: 40,
    site_count: 3,
    site_work: 30,
    site_span: 30,
    caller_count: 2,
    caller_work: 20,
    caller_span: 20,
};

#[test]
fn a_new_table_has_zero_rows(rt: HostRuntime) -> Result<(), Fail> {
    let table = Table::new(rt.alloc());
    assert_eq!(rt; table.root_row(), Row::default());
    for site in [0, 1, 65535, 4_294_967_295] {
        assert_eq!(rt; table.row(site), Row::default(), "site {site}");
    }
    Ok(())
}

#[test]
fn rows_add_up_by_site(rt: HostRuntime) -> Result<(), Fail> {
    let mut table = Table::new(rt.alloc());
    table.add(0, &TEN)?;
    assert_eq!(rt; table.row(0), TEN);
    table.add(0, &TEN)?;
    assert_eq!(rt; table.row(0), TWENTY);
    assert_eq!(rt; table.row(1), Row::default());
    assert_eq!(rt; table.row(65535), Row::default());
    assert_eq!(rt; table.root_row(), Row::default());
    table.add(65535, &MIXED)?;
    assert_eq!(rt; table.row(65535), MIXED);
    assert_eq!(rt; table.row(65534), Row::default());
    assert_eq!(rt; table.row(65536), Row::default());
    assert_eq!(rt; table.row(0), TWENTY);
    table.add_root(&TEN);
    assert_eq!(rt; table.root_row(), TEN);
    table.add_root(&MIXED);
    assert_eq!(rt; table.root_row(), TEN_AND_MIXED);
    assert_eq!(rt; table.row(0), TWENTY);
    Ok(())
}

#[test]
fn tables_merge_and_are_copied(rt: HostRuntime) -> Result<(), Fail> {
    let mut left = Table::new(rt.alloc());
    left.add_root(&TEN);
    left.add(7, &TEN)?;
    left.add(2, &TEN)?;
    let mut right = Table::new(rt.alloc());
    right.add_root(&MIXED);
    right.add(65535, &MIXED)?;
    right.add(2, &MIXED)?;
    let both = Table::merged(rt.alloc(), &left, &right)?;
    let copy = Table::copy(rt.alloc(), &both)?;
    for table in [&both, &copy] {
        assert_eq!(rt; table.root_row(), TEN_AND_MIXED);
        assert_eq!(rt; table.row(7), TEN);
        assert_eq!(rt; table.row(2), TEN_AND_MIXED);
        assert_eq!(rt; table.row(65535), MIXED);
        assert_eq!(rt; table.row(0), Row::default());
    }
    assert_eq!(rt; left.row(2), TEN);
    assert_eq!(rt; right.row(2), MIXED);
    Ok(())
}

#[test]
fn a_frame_that_closes_adds_to_its_site(rt: HostRuntime) -> Result<(), Fail> {
    let frame = ClosedFrame {
        local: 1,
        work: 5,
        span: 3,
        top_site: true,
        top_caller: false,
    };
    let mut table = Table::new(rt.alloc());
    table.close(2, &frame)?;
    table.close(2, &frame)?;
    assert_eq!(rt;
        table.row(2),
        Row {
            count: 2,
            local: 2,
            site_count: 2,
            site_work: 10,
            site_span: 6,
            ..Row::default()
        }
    );
    assert_eq!(rt; table.row(1), Row::default());
    Ok(())
}

/// A frame whose numbers fit a narrow row.
const NARROW_FRAME: ClosedFrame = ClosedFrame {
    local: 1,
    work: 5,
    span: 3,
    top_site: true,
    top_caller: false,
};

/// And one whose work doesn't.
const WIDE_FRAME: ClosedFrame = ClosedFrame {
    local: 2,
    work: 1 << 64,
    span: 7,
    top_site: true,
    top_caller: true,
};

/// Each of both twice.
const BOTH_TWICE: Row = Row {
    count: 4,
    local: 6,
    site_count: 4,
    site_work: (2 << 64) + 10,
    site_span: 20,
    caller_count: 2,
    caller_work: 2 << 64,
    caller_span: 14,
};

#[test]
fn narrow_sums_add_up(rt: HostRuntime) -> Result<(), Fail> {
    let mut sums = EmptySums::new(rt.alloc()).into_sums();
    sums.close(2000, &NARROW_FRAME)?;
    sums.close(2000, &WIDE_FRAME)?;
    let once = sums.into_list(rt.alloc())?;
    let mut twice = once.1.into_sums();
    twice.absorb(&once.0)?;
    twice.absorb(&once.0)?;
    let both = twice.into_list(rt.alloc())?;
    let mut table = Table::new(rt.alloc());
    both.0.add_to(&mut table)?;
    assert_eq!(rt; table.row(2000), BOTH_TWICE);
    assert_eq!(rt; table.row(1999), Row::default());
    assert_eq!(rt; table.root_row(), Row::default());
    Ok(())
}

#[test]
fn narrow_rows_add_up_by_site(rt: HostRuntime) -> Result<(), Fail> {
    let mut narrow = NarrowTable::new(rt.alloc());
    let row = NarrowRow::of_numbers(10, 10, 10, true, true);
    narrow.add(0, &row)?;
    narrow.add_row(65535, &MIXED)?;
    narrow.add_known(&[KnownRow { row, site: 0 }])?;
    let mut table = Table::new(rt.alloc());
    narrow.add_to(&mut table)?;
    assert_eq!(rt; table.row(0), TWENTY);
    assert_eq!(rt; table.row(65535), MIXED);
    assert_eq!(rt; table.row(1), Row::default());
    Ok(())
}

#[test]
fn numbers_are_put_in_and_taken_out(rt: HostRuntime) -> Result<(), Fail> {
    let mut marks = Marks::new(rt.alloc());
    marks.add(3)?;
    marks.add_if(true, 70_000)?;
    marks.add_if(false, 5)?;
    assert!(rt; marks.has(3) && marks.has(70_000));
    assert!(rt; !marks.has(4) && !marks.has(5) && !marks.has(70_001));
    marks.remove_if(false, 3);
    marks.remove(70_000);
    assert!(rt; marks.has(3) && !marks.has(70_000));
    marks.remove_if(true, 3);
    assert!(rt; !marks.has(3));
    Ok(())
}
