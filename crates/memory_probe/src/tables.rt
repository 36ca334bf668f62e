//! The calls of tables and of shares.

use super::Answer;
use spp_site::{Row, Share, Table};
use std::alloc::{AllocError, Global};

/// A row with ten strands' instructions.
const TEN: Row = Row {
    count: 1,
    local: 10,
    site_count: 0,
    site_work: 0,
    site_span: 0,
    caller_count: 0,
    caller_work: 0,
    caller_span: 0,
};

/// The sum of two of them.
const TWENTY: Row = Row {
    count: 2,
    local: 20,
    site_count: 0,
    site_work: 0,
    site_span: 0,
    caller_count: 0,
    caller_work: 0,
    caller_span: 0,
};

/// The site that has a row.
const SITE: u32 = 40000;

/// Another one.
const OTHER_SITE: u32 = 50000;

/// What of a table is right: `Memory` where a call was refused that left the table as it was, and that then went well.
fn answer(is_right: bool, was_refused: bool) -> Answer {
    match (is_right, was_refused) {
        (false, _) => Answer::Other,
        (true, false) => Answer::Good,
        (true, true) => Answer::Memory,
    }
}

/// A row is added to a table that has none; where that is refused, once more.
pub fn added(alloc: Global) -> Answer {
    let mut table = Table::new(alloc);
    let was_refused = table.add(SITE, &TEN).is_err();
    if was_refused {
        let is_unchanged = table.row(SITE) == Row::default();
        if !is_unchanged || table.add(SITE, &TEN).is_err() {
            return Answer::Other;
        }
    }
    answer(table.row(SITE) == TEN, was_refused)
}

/// A table with one row, a copy of it, and both together.
pub fn merged(alloc: Global) -> Result<Answer, AllocError> {
    let mut left = Table::new(alloc);
    left.add(SITE, &TEN)?;
    let right = Table::copy(alloc, &left)?;
    let both = Table::merged(alloc, &left, &right)?;
    let are_right = both.row(SITE) == TWENTY && left.row(SITE) == TEN && right.row(SITE) == TEN;
    Ok(answer(are_right, false))
}

/// A share is added to a table, of which a site of its own has a row; where that is refused, once more.
pub fn absorbed(alloc: Global) -> Result<Answer, AllocError> {
    let mut table = Table::new(alloc);
    table.add(SITE, &TEN)?;
    let mut more = Table::new(alloc);
    more.add(OTHER_SITE, &TEN)?;
    let share = more.into_share();
    let was_refused = table.absorb(&share).is_err();
    if was_refused {
        let is_unchanged = table.row(OTHER_SITE) == Row::default();
        if !is_unchanged || table.absorb(&share).is_err() {
            return Ok(Answer::Other);
        }
    }
    let is_right = table.row(SITE) == TEN && table.row(OTHER_SITE) == TEN;
    Ok(answer(is_right, was_refused))
}

/// A share is added to another, and where that is refused, once more; the sum becomes a table.
pub fn shared(alloc: Global) -> Result<Answer, AllocError> {
    let mut table = Table::new(alloc);
    table.add(SITE, &TEN)?;
    let mut share = table.into_share();
    let other = Share::copy(alloc, &share)?;
    let was_refused = share.merge(&other).is_err();
    if was_refused && share.merge(&other).is_err() {
        return Ok(Answer::Other);
    }
    let sum = Table::from_share(alloc, &share)?;
    Ok(answer(sum.row(SITE) == TWENTY, was_refused))
}
