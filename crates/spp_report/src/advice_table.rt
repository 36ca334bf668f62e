//! What is told about mending a run, as comma-separated values.

ghost use Rattle.std.specs.Prelude.{◌≡◌, ◌++◌, [], replicate, IfOk, OnOk};
ghost use Rattle.std.specs.Io.KnownBytes.{Appends};
ghost use Rattle.std.specs.List.{flat_map};
ghost use Rattle.csv.specs.Records.{fields_of, partial_of};
ghost use Rattle.csv.specs.Writing.{text_written};
ghost use Rattle.spp_report.specs.AdviceCsv.{
  HavePlainNames,
  advice_csv as csv_of_advice,
  changed_record,
  listed_numbers as numbers_of_site,
  listed_record,
  run_cells,
};
ghost use Rattle.spp_report.specs.CsvWriters.{AwaitsRecord};

use crate::advice::{cost, words_of_change};
use crate::advised::{Advice, ListedSite};
use crate::csv_table::{push_numbers, write_columns, write_record};
use csv::{ByteRecord, Writer, WriterBuilder};
use spp_dag::Figures;
use spp_maxplus::Burdens;
use std::alloc::{AllocError, Global};
use std::io::Write;

/// The names of the columns.
const COLUMNS: [&[u8]; 13] = [
    b"name",
    b"change",
    b"work",
    b"span",
    b"burdened",
    b"frames",
    b"local",
    b"site_work",
    b"site_span",
    b"path_local",
    b"burdened_path_local",
    b"burdens",
    b"burdens_cost",
];

/// How many columns have numbers of a call site.
const SITE_COLUMNS: usize = 8;

/// The eight numbers of a call site: its frames; the instructions directly in them, its work and its span; what is directly
/// in its frames on either path; how many burdens its spawns bear on the burdened path, and what these cost.
fn site_numbers(burdens: Burdens, site: &ListedSite<'_>) -> [u128; SITE_COLUMNS]
    ensures { result ≡ numbers_of_site burdens site.now }
{
    let dag = &site.dag;
    [
        u128::from(dag.count),
        dag.local,
        dag.site_work,
        dag.site_span,
        site.path.local,
        site.burdened_path.local,
        u128::from(site.past) + u128::from(site.into),
        cost(burdens, site),
    ]
}

/// Begins a record: a site, what is changed, and the figures of that run. What `fields` held before is lost.
fn begin_record(
    fields: &mut ByteRecord,
    name: &str,
    change: &str,
    figures: &Figures,
) -> Result<(), AllocError>
    ensures fields { OnOk result (fields_of fields.new ≡ run_cells name.now change.now figures.now) }
    ensures between { OnOk result (partial_of fields.new ≡ []) }
{
    fields.clear();
    fields.push_field(name.as_bytes())?;
    fields.push_field(change.as_bytes())?;
    push_numbers(fields, &[figures.work, figures.span, figures.burdened])
}

/// Adds an empty cell for each number of a site.
fn push_no_numbers(fields: &mut ByteRecord) -> Result<(), AllocError>
    requires { partial_of fields.old ≡ [] }
    ensures { OnOk result (fields_of fields.new ≡ fields_of fields.old ++ replicate 8 []) }
{
    for _column in 0..SITE_COLUMNS {
        fields.push_field(b"")?;
    }
    Ok(())
}

/// Writes the record of each site in the run as recorded, in order. What `fields` held before is lost.
fn write_sites<W: Write + Drop>(
    writer: &mut Writer<W>,
    fields: &mut ByteRecord,
    advice: &Advice<'_, '_, '_>,
) -> Result<(), AllocError>
    requires ready { AwaitsRecord writer.old }
    requires names { HavePlainNames advice.now }
    ensures text { OnOk result (Appends (text_written W.contents writer.old) (text_written W.contents writer.new) (flat_map (listed_record advice.now.figures advice.now.burdens) advice.now.sites.now)) }
    ensures next { OnOk result (AwaitsRecord writer.new) }
{
    for site in advice.sites {
        begin_record(fields, site.name, "as recorded", &advice.figures)?;
        push_numbers(fields, &site_numbers(advice.burdens, site))?;
        write_record(writer, fields)?;
    }
    Ok(())
}

/// Writes the record of each changed run, in order. What `fields` held before is lost.
fn write_runs<W: Write + Drop>(
    alloc: Global,
    writer: &mut Writer<W>,
    fields: &mut ByteRecord,
    advice: &Advice<'_, '_, '_>,
) -> Result<(), AllocError>
    requires ready { AwaitsRecord writer.old }
    requires names { HavePlainNames advice.now }
    ensures { OnOk result (Appends (text_written W.contents writer.old) (text_written W.contents writer.new) (flat_map changed_record advice.now.runs.now)) }
{
    for run in advice.runs {
        let change = words_of_change(alloc, *run.change)?;
        begin_record(fields, run.name, change.as_str(), &run.figures)?;
        push_no_numbers(fields)?;
        write_record(writer, fields)?;
    }
    Ok(())
}

/// Writes the columns, the record of each site, and that of each changed run.
fn write_advice<W: Write + Drop>(
    alloc: Global,
    writer: &mut Writer<W>,
    fields: &mut ByteRecord,
    advice: &Advice<'_, '_, '_>,
) -> Result<(), AllocError>
    requires ready { AwaitsRecord writer.old }
    requires names { HavePlainNames advice.now }
    ensures { OnOk result (Appends (text_written W.contents writer.old) (text_written W.contents writer.new) (csv_of_advice advice.now)) }
{
    write_columns(writer, &COLUMNS)?;
    write_sites(writer, fields, advice)?;
    write_runs(alloc, writer, fields, advice)
}

/// What is told about mending a run, as comma-separated values: a header of thirteen columns, and a record for each run
/// that figures are told of. First come the sites, in order, each with the words `as recorded`, the work, the span and the
/// burdened span of the run, and eight numbers of its own; then the changed runs, in order, each with the name of its site,
/// what is changed, its figures, and eight empty cells. A name stands in double quotes where it has a comma or a double
/// quote, with each quote of it doubled. It takes memory and time linear in the text.
///
/// # Errors
///
/// An allocation failed.
pub fn advice_csv(alloc: Global, advice: &Advice<'_, '_, '_>) -> Result<Vec<u8>, AllocError>
    requires names { HavePlainNames advice.now }
    ensures { IfOk result (λ text. text.items ≡ csv_of_advice advice.now) }
{
    let mut writer = WriterBuilder::new().from_writer(Vec::new(alloc));
    let mut fields = ByteRecord::new(alloc);
    write_advice(alloc, &mut writer, &mut fields, advice)?;
    writer.into_inner().map_err(|_| AllocError)
}
