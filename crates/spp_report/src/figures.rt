//! The figures of a run as text.

ghost use Rattle.std.specs.Prelude.{◌≡◌, ◌<◌, ◌^◌, IfOk};
ghost use Rattle.std.specs.String.{string_bytes};
ghost use Rattle.spp_report.specs.Figures.{hundredths as hundredths_of, ratio_text, figures_text as text_of_figures};

use spp_dag::Figures;
use std::alloc::{AllocError, Global};

/// The parallelism of a run in hundredths, rounded down: its work over its span, both in instructions, the work below
/// 2^120. None where the span is 0.
pub fn hundredths(work: u128, span: u128) -> Option<u128>
    requires { work < 2 ^ 120 }
    ensures { result ≡ hundredths_of work span }
{
    if span == 0 {
        None
    } else {
        Some(100 * work / span)
    }
}

/// A ratio with two digits behind its point, or a dash where there is none.
pub(crate) fn text_of_ratio(alloc: Global, hundredths: Option<u128>) -> Result<String, AllocError>
    ensures { IfOk result (λ text. string_bytes text ≡ ratio_text hundredths) }
{
    match hundredths {
        None => format!(in alloc; "-"),
        Some(h) => format!(in alloc; "{}.{}{}", h / 100, h / 10 % 10, h % 10),
    }
}

/// The figures of a run as five lines: work, span and burdened span in instructions, then the parallelism and the
/// burdened parallelism, with two digits behind the point, rounded down, or a dash where the divisor is 0. The work is
/// below 2^120.
///
/// # Errors
///
/// An allocation failed.
pub fn figures_text(alloc: Global, figures: &Figures) -> Result<Vec<u8>, AllocError>
    requires { figures.now.work < 2 ^ 120 }
    ensures { IfOk result (λ text. text.items ≡ text_of_figures figures.now) }
{
    let Figures {
        work,
        span,
        burdened,
    } = *figures;
    let plain = text_of_ratio(alloc, hundredths(work, span))?;
    let with_burdens = text_of_ratio(alloc, hundredths(work, burdened))?;
    let text = format!(in alloc;
        "work {work}\nspan {span}\nburdened {burdened}\nparallelism {plain}\nburdened parallelism {with_burdens}\n"
    )?;
    Ok(text.into_bytes())
}
