//! What more processors bring.

ghost use Rattle.std.specs.Prelude.{◌≡◌, ◌++◌, ◌<◌, ◌≤◌, ◌^◌, OnOk};
ghost use Rattle.std.specs.List.{flat_map};
ghost use Rattle.spp_report.specs.Small.{AreSmall};
ghost use Rattle.spp_report.specs.Advice.{bound_cells, bound_line, bounds_text, least as least_of, most as most_of};

use crate::figures::hundredths;
use crate::line::{Cell, push_line, push_title};
use itoa::Buffer;
use spp_dag::Figures;
use std::alloc::{AllocError, Global};

/// The numbers of processors that a table may tell of.
const PROCESSORS: [u32; 6] = [2, 4, 8, 16, 32, 64];

/// The names of the columns.
const HEADINGS: &str = "        most        least  burden_most burden_least processors\n";

/// The most that any scheduler reaches on so many processors, in hundredths: the lesser of them and the parallelism.
fn most(processors: u32, work: u128, span: u128) -> Option<u128>
    requires work { work < 2 ^ 120 }
    requires span { span < 2 ^ 95 }
    ensures { result ≡ most_of processors work span }
{
    hundredths(work.min(u128::from(processors) * span), span)
}

/// The least that a greedy scheduler reaches on so many processors, in hundredths.
fn least(processors: u32, work: u128, span: u128) -> Option<u128>
    requires some { 0 < processors }
    requires few { processors ≤ 64 }
    requires work { work < 2 ^ 93 }
    requires span { span < 2 ^ 95 }
    ensures { result ≡ least_of processors work span }
{
    let processors = u128::from(processors);
    hundredths(processors * work, work + (processors - 1) * span)
}

/// The cells of a number of processors.
fn cells(figures: &Figures, processors: u32) -> [Cell; 4]
    requires some { 0 < processors }
    requires few { processors ≤ 64 }
    requires small { AreSmall figures.now }
    ensures { result ≡ bound_cells figures.now processors }
{
    let Figures {
        work,
        span,
        burdened,
    } = *figures;
    [
        Cell::Ratio(most(processors, work, span)),
        Cell::Ratio(least(processors, work, span)),
        Cell::Ratio(most(processors, work, burdened)),
        Cell::Ratio(least(processors, work, burdened)),
    ]
}

/// Adds the line of a number of processors, where it has one.
fn push_bound(
    alloc: Global,
    text: &mut Vec<u8>,
    figures: &Figures,
    processors: u32,
) -> Result<(), AllocError>
    requires some { 0 < processors }
    requires few { processors ≤ 64 }
    requires small { AreSmall figures.now }
    ensures { OnOk result (text.new.items ≡ text.old.items ++ bound_line figures.now processors) }
{
    let below = u128::from(processors / 2) * figures.span;
    if processors == 2 || below < figures.work {
        let cells = cells(figures, processors);
        return push_line(alloc, text, &cells, Buffer::new().format(processors));
    }
    Ok(())
}

/// Adds the table of the speed-ups that schedulers reach.
pub(crate) fn push_bounds(
    alloc: Global,
    text: &mut Vec<u8>,
    figures: &Figures,
) -> Result<(), AllocError>
    requires small { AreSmall figures.now }
    ensures { OnOk result (text.new.items ≡ text.old.items ++ bounds_text figures.now) }
{
    push_title(text, "speed-up on so many processors", HEADINGS)?;
    for k in 0..PROCESSORS.len() {
        push_bound(alloc, text, figures, PROCESSORS[k])?;
    }
    Ok(())
}
