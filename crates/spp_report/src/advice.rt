//! What is told about mending a run, as text.

ghost use Rattle.std.specs.Prelude.{◌≡◌, ◌+◌, ◌*◌, ◌++◌, ◌<◌, ◌≤◌, ◌^◌, [], map, IfOk, OnOk};
ghost use Rattle.std.specs.List.{flat_map};
ghost use Rattle.std.specs.String.{string_bytes};
ghost use Rattle.std.specs.Option.{option_map};
ghost use Rattle.spp_report.specs.Small.{AreSmall};
ghost use Rattle.spp_report.specs.Advice.{
  HaveSmallWork,
  IsAdviceText,
  IsBest,
  IsHeaviest,
  beginning_line,
  beginning_text,
  change_text,
  change_words,
  changed_line,
  changed_text,
  changes_text,
  cost_of,
  figure_cells,
  figures_line,
  per_cent as per_cent_of,
  reason as reason_of,
  saving as saving_of,
  saving_text,
  site_beginning,
  listed_cells,
  listed_line,
  sites_text,
};

use crate::advised::{Advice, ChangedRun, ListedSite};
use crate::bounds::push_bounds;
use crate::figures::{figures_text, hundredths, text_of_ratio};
use crate::line::{Cell, push_line, push_title};
use spp_change::Change;
use spp_dag::Figures;
use spp_maxplus::Burdens;
use std::alloc::{AllocError, Global};

/// A part of a whole in hundredths of a per cent; none where the whole is 0.
fn per_cent(part: u128, whole: u128) -> Option<u128>
    requires { part < 2 ^ 100 }
    ensures { result ≡ per_cent_of part whole }
{
    hundredths(100 * part, whole)
}

/// What the burdens of a site's spawns cost on the burdened path, in instructions.
pub(crate) fn cost(burdens: Burdens, site: &ListedSite<'_>) -> u128
    ensures value { result ≡ cost_of burdens site.now }
    ensures small { result < 2 ^ 66 }
{
    u128::from(site.past) * u128::from(burdens.continuation)
        + u128::from(site.into) * u128::from(burdens.join)
}

/// The cells of a call site.
fn cells(figures: &Figures, burdens: Burdens, site: &ListedSite<'_>) -> [Cell; 8]
    ensures { result ≡ listed_cells figures.now burdens site.now }
{
    let dag = &site.dag;
    let cost = cost(burdens, site);
    [
        Cell::Number(u128::from(dag.count)),
        Cell::Ratio(hundredths(dag.local, u128::from(dag.count))),
        Cell::Ratio(hundredths(dag.site_work, dag.site_span)),
        Cell::Ratio(per_cent(site.path.local, figures.span)),
        Cell::Ratio(per_cent(site.burdened_path.local, figures.burdened)),
        Cell::Number(u128::from(site.past) + u128::from(site.into)),
        Cell::Number(cost),
        Cell::Ratio(per_cent(cost, figures.burdened)),
    ]
}

/// The names of the columns of call sites.
const SITE_HEADINGS: &str =
    "      frames        grain  parallelism     span_pct burdened_pct      burdens burdens_cost  burdens_pct name\n";

/// Adds the table of the call sites.
fn push_sites(
    alloc: Global,
    text: &mut Vec<u8>,
    figures: &Figures,
    burdens: Burdens,
    sites: &[ListedSite<'_>],
) -> Result<(), AllocError>
    ensures { OnOk result (text.new.items ≡ text.old.items ++ sites_text figures.now burdens sites.now) }
{
    push_title(
        text,
        "call sites by what they add to the paths",
        SITE_HEADINGS,
    )?;
    for site in sites {
        let cells = cells(figures, burdens, site);
        push_line(alloc, text, &cells, site.name)?;
    }
    Ok(())
}

/// What is changed, in words.
pub(crate) fn words_of_change(alloc: Global, change: Change) -> Result<String, AllocError>
    ensures { IfOk result (λ words. string_bytes words ≡ change_words change) }
{
    match change {
        Change::Faster { factor, .. } => format!(in alloc; "{} times faster", factor.number()),
        Change::Called { .. } => format!(in alloc; "spawns as calls"),
        Change::Spawned { .. } => format!(in alloc; "calls as spawns"),
    }
}

/// At which site what is changed, as a text.
fn text_of_change(alloc: Global, run: &ChangedRun<'_, '_>) -> Result<String, AllocError>
    ensures { IfOk result (λ text. string_bytes text ≡ changed_text run.now) }
{
    let name = run.name;
    let words = words_of_change(alloc, *run.change)?;
    format!(in alloc; "{name}: {words}")
}

/// How much shorter the burdened span is than that of the run as recorded, in hundredths of a per cent; none where it is longer.
fn saving(recorded: &Figures, figures: &Figures) -> Option<u128>
    requires { AreSmall recorded.now }
    ensures { result ≡ saving_of recorded.now figures.now }
{
    if recorded.burdened < figures.burdened {
        return None;
    }
    per_cent(recorded.burdened - figures.burdened, recorded.burdened)
}

/// Adds the line of the figures of a run beside those of the run as recorded.
fn push_figures(
    alloc: Global,
    text: &mut Vec<u8>,
    recorded: &Figures,
    figures: &Figures,
    name: &str,
) -> Result<(), AllocError>
    requires recorded { AreSmall recorded.now }
    requires light { figures.now.work < 2 ^ 92 }
    ensures { OnOk result (text.new.items ≡ text.old.items ++ figures_line recorded.now figures.now name.now) }
{
    let Figures {
        work,
        span,
        burdened,
    } = *figures;
    let saved = saving(recorded, figures);
    let cells = [
        Cell::Number(work),
        Cell::Number(span),
        Cell::Ratio(hundredths(work, span)),
        Cell::Number(burdened),
        Cell::Ratio(hundredths(work, burdened)),
        Cell::Ratio(saved),
    ];
    push_line(alloc, text, &cells, name)
}

/// Adds the line of a changed run.
fn push_run(
    alloc: Global,
    text: &mut Vec<u8>,
    recorded: &Figures,
    run: &ChangedRun<'_, '_>,
) -> Result<(), AllocError>
    requires recorded { AreSmall recorded.now }
    requires light { run.now.figures.work < 2 ^ 92 }
    ensures { OnOk result (text.new.items ≡ text.old.items ++ changed_line recorded.now run.now) }
{
    let name = text_of_change(alloc, run)?;
    push_figures(alloc, text, recorded, &run.figures, name.as_str())
}

/// The names of the columns of changed runs.
const FIGURE_HEADINGS: &str =
    "        work         span  parallelism     burdened burdened_par    saved_pct change\n";

/// Adds the table of the changed runs, behind the run as recorded.
fn push_runs(
    alloc: Global,
    text: &mut Vec<u8>,
    figures: &Figures,
    runs: &[ChangedRun<'_, '_>],
) -> Result<(), AllocError>
    requires small { AreSmall figures.now }
    requires light { HaveSmallWork runs.now }
    ensures { OnOk result (text.new.items ≡ text.old.items ++ changes_text figures.now runs.now) }
{
    push_title(text, "what if", FIGURE_HEADINGS)?;
    push_figures(alloc, text, figures, figures, "as recorded")?;
    for run in runs {
        push_run(alloc, text, figures, run)?;
    }
    Ok(())
}

/// Of the runs that have a shorter burdened span than the recorded one, the first of the shortest; none where no run has.
fn best<'t, 'n, 'c>(
    figures: &Figures,
    runs: &'t [ChangedRun<'n, 'c>],
) -> Option<&'t ChangedRun<'n, 'c>>
    ensures { IsBest figures.now runs.now (option_map (λ r. r.now) result) }
{
    let mut best: Option<&ChangedRun<'n, 'c>> = None;
    let mut least = figures.burdened;
    for run in runs {
        if run.figures.burdened < least {
            least = run.figures.burdened;
            best = Some(run);
        }
    }
    best
}

/// Why a change makes the burdened span shorter.
fn reason(change: Change) -> &'static str
    ensures { result.now ≡ reason_of change }
{
    match change {
        Change::Faster { .. } => "what it runs itself is on the burdened path",
        Change::Called { .. } => "its spawns cost more than they bring",
        Change::Spawned { .. } => {
            "it could run beside what follows, if nothing there needs it before the next sync"
        }
    }
}

/// Of the sites, the first of those whose own strands and spawns come to most on the burdened path; none where there is no site.
fn heaviest<'t, 'n>(burdens: Burdens, sites: &'t [ListedSite<'n>]) -> Option<&'t ListedSite<'n>>
    ensures { IsHeaviest burdens sites.now (option_map (λ s. s.now) result) }
{
    let mut heaviest: Option<&ListedSite<'n>> = None;
    let mut least = 0;
    for site in sites {
        let weight = site.burdened_path.local + cost(burdens, site);
        if weight >= least {
            least = weight + 1;
            heaviest = Some(site);
        }
    }
    heaviest
}

/// Adds a line that names a site, says what its share of the burdened span is, and what would shorten it.
fn push_beginning(
    alloc: Global,
    text: &mut Vec<u8>,
    name: &str,
    what: &str,
    share: Option<u128>,
    cure: &str,
) -> Result<(), AllocError>
    ensures { OnOk result (text.new.items ≡ text.old.items ++ beginning_line name.now what.now share cure.now) }
{
    let share = text_of_ratio(alloc, share)?;
    let line = format!(in alloc; "begin with {name}{what}{share}{cure}\n")?;
    text.extend_from_slice(line.as_bytes())
}

/// Adds the line that says why to begin with a site.
fn push_site_beginning(
    alloc: Global,
    text: &mut Vec<u8>,
    figures: &Figures,
    burdens: Burdens,
    site: &ListedSite<'_>,
) -> Result<(), AllocError>
    ensures { OnOk result (text.new.items ≡ text.old.items ++ site_beginning figures.now burdens site.now) }
{
    let own = site.burdened_path.local;
    let cost = cost(burdens, site);
    if own < cost {
        let share = per_cent(cost, figures.burdened);
        let cure = " per cent of the burdened span; larger pieces would bear fewer";
        push_beginning(
            alloc,
            text,
            site.name,
            ": the burdens of its spawns are ",
            share,
            cure,
        )
    } else {
        let share = per_cent(own, figures.burdened);
        let cure =
            " per cent of the burdened span; less of it, or parts of it side by side, would shorten it";
        push_beginning(
            alloc,
            text,
            site.name,
            ": what it runs itself is ",
            share,
            cure,
        )
    }
}

/// Adds that line, where there is a site.
fn push_site_to_begin_with(
    alloc: Global,
    text: &mut Vec<u8>,
    figures: &Figures,
    burdens: Burdens,
    site: Option<&ListedSite<'_>>,
) -> Result<(), AllocError>
    ensures { OnOk result (text.new.items ≡ text.old.items ++ beginning_text figures.now burdens (option_map (λ s. s.now) site.entry)) }
{
    match site {
        None => Ok(()),
        Some(site) => push_site_beginning(alloc, text, figures, burdens, site),
    }
}

/// The line that says which change saves most.
fn text_of_saving(
    alloc: Global,
    figures: &Figures,
    best: Option<&ChangedRun<'_, '_>>,
) -> Result<String, AllocError>
    requires { AreSmall figures.now }
    ensures { IfOk result (λ text. string_bytes text ≡ saving_text figures.now (option_map (λ r. r.now) best.entry)) }
{
    let Some(run) = best else {
        return format!(in alloc; "no change that was tried makes the burdened span shorter\n");
    };
    let change = text_of_change(alloc, run)?;
    let saved = text_of_ratio(alloc, saving(figures, &run.figures))?;
    let reason = reason(*run.change);
    format!(in alloc;
        "most is saved by {change}, burdened span {} to {}, {saved} per cent less, since {reason}\n",
        figures.burdened, run.figures.burdened
    )
}

/// What is told about mending a run, as text: the five lines of [`figures_text`]; the speed-ups that schedulers reach on 2,
/// 4, 8, .. processors, up to 64 or where the parallelism is reached, the most and the least, without burdens and with them;
/// the call sites, with their shares of both spans and what the burdens of their spawns cost; the figures of the changed
/// runs, whose work is below 2^92 each; a line that says which site to begin with, and one that says which change saves most. It takes memory and time linear in the text.
///
/// # Errors
///
/// An allocation failed.
pub fn advice_text(alloc: Global, advice: &Advice<'_, '_, '_>) -> Result<Vec<u8>, AllocError>
    requires { HaveSmallWork advice.now.runs.now }
    ensures { IfOk result (λ text. IsAdviceText advice.now text.items) }
{
    let Advice {
        figures,
        burdens,
        sites,
        runs,
    } = *advice;
    let mut text = figures_text(alloc, &figures)?;
    push_bounds(alloc, &mut text, &figures)?;
    push_sites(alloc, &mut text, &figures, burdens, sites)?;
    push_runs(alloc, &mut text, &figures, runs)?;
    text.extend_from_slice(b"\n")?;
    let heaviest = heaviest(burdens, sites);
    push_site_to_begin_with(alloc, &mut text, &figures, burdens, heaviest)?;
    let saving = text_of_saving(alloc, &figures, best(&figures, runs))?;
    text.extend_from_slice(saving.as_bytes())?;
    Ok(text)
}
