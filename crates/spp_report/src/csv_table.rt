//! The tables of a run as comma-separated values.

ghost use Rattle.std.specs.Prelude.{◌≡◌, ◌++◌, [], length, map, decimal, IfOk, OnOk};
ghost use Rattle.std.specs.Io.KnownBytes.{Appends};
ghost use Rattle.std.specs.List.{flat_map, range_with_len};
ghost use Rattle.csv.specs.Records.{fields_of, partial_of};
ghost use Rattle.csv.specs.Writing.{text_written};
ghost use Rattle.spp_event.specs.Header.{HasGoodNames};
ghost use Rattle.spp_report.specs.Csv.{csv_text as csv_of_profile, named_record, record_text, site_record};
ghost use Rattle.spp_report.specs.CsvWriters.{AwaitsRecord, IsPlain, IsPlainRecord};

use crate::cells::numbers;
use crate::named::Named;
use csv::{ByteRecord, Writer, WriterBuilder};
use itoa::Buffer;
use spp_site::Row;
use std::alloc::{AllocError, Global};
use std::io::Write;

/// The names of the columns.
const COLUMNS: [&[u8]; 25] = [
    b"name",
    b"count",
    b"local",
    b"site_count",
    b"site_work",
    b"site_span",
    b"caller_count",
    b"caller_work",
    b"caller_span",
    b"path_count",
    b"path_local",
    b"path_site_count",
    b"path_site_work",
    b"path_site_span",
    b"path_caller_count",
    b"path_caller_work",
    b"path_caller_span",
    b"burdened_path_count",
    b"burdened_path_local",
    b"burdened_path_site_count",
    b"burdened_path_site_work",
    b"burdened_path_site_span",
    b"burdened_path_caller_count",
    b"burdened_path_caller_work",
    b"burdened_path_caller_span",
];

/// Adds numbers to a record.
pub(crate) fn push_numbers(fields: &mut ByteRecord, numbers: &[u128]) -> Result<(), AllocError>
    requires { partial_of fields.old ≡ [] }
    ensures fields { OnOk result (fields_of fields.new ≡ fields_of fields.old ++ map decimal numbers.now) }
    ensures between { OnOk result (partial_of fields.new ≡ []) }
{
    let mut digits = Buffer::new();
    for number in numbers {
        fields.push_field(digits.format(*number).as_bytes())?;
    }
    Ok(())
}

/// Writes the names of columns.
pub(crate) fn write_columns<W: Write + Drop>(
    writer: &mut Writer<W>,
    columns: &[&[u8]],
) -> Result<(), AllocError>
    requires ready { AwaitsRecord writer.old }
    requires plain { IsPlainRecord (map (λ name. name.now) columns.now) }
    ensures text { OnOk result (Appends (text_written W.contents writer.old) (text_written W.contents writer.new) (record_text (map (λ name. name.now) columns.now))) }
    ensures next { OnOk result (AwaitsRecord writer.new) }
{
    writer.write_fields(columns).map_err(|_| AllocError)
}

/// Writes a record.
pub(crate) fn write_record<W: Write + Drop>(
    writer: &mut Writer<W>,
    fields: &ByteRecord,
) -> Result<(), AllocError>
    requires ready { AwaitsRecord writer.old }
    requires plain { IsPlainRecord (fields_of fields.now) }
    ensures text { OnOk result (Appends (text_written W.contents writer.old) (text_written W.contents writer.new) (record_text (fields_of fields.now))) }
    ensures next { OnOk result (AwaitsRecord writer.new) }
{
    writer.write_byte_record(fields).map_err(|_| AllocError)
}

/// Writes the record of a name and its rows in the three tables. What `fields` held before is lost.
fn write_rows<W: Write + Drop>(
    writer: &mut Writer<W>,
    fields: &mut ByteRecord,
    name: &str,
    dag: &Row,
    path: &Row,
    burdened_path: &Row,
) -> Result<(), AllocError>
    requires ready { AwaitsRecord writer.old }
    requires plain { IsPlain name.now }
    ensures text { OnOk result (Appends (text_written W.contents writer.old) (text_written W.contents writer.new) (named_record name.now dag.now path.now burdened_path.now)) }
    ensures next { OnOk result (AwaitsRecord writer.new) }
{
    fields.clear();
    fields.push_field(name.as_bytes())?;
    push_numbers(fields, &numbers(dag))?;
    push_numbers(fields, &numbers(path))?;
    push_numbers(fields, &numbers(burdened_path))?;
    write_record(writer, fields)
}

/// Writes the record of each site, in order.
fn write_sites<W: Write + Drop>(
    writer: &mut Writer<W>,
    fields: &mut ByteRecord,
    named: &Named<'_, '_>,
) -> Result<(), AllocError>
    requires ready { AwaitsRecord writer.old }
    requires names { HasGoodNames named.now.trace.now }
    ensures { OnOk result (Appends (text_written W.contents writer.old) (text_written W.contents writer.new) (flat_map (site_record named.now.trace.now named.now.profile.now) (range_with_len 0 (length named.now.trace.now.sites)))) }
{
    let Named { trace, profile } = *named;
    for site in 0..trace.sites() {
        let (dag, path) = (profile.dag.row(site), profile.path.row(site));
        let burdened_path = profile.burdened_path.row(site);
        let name = trace.site_name(site);
        write_rows(writer, fields, name, &dag, &path, &burdened_path)?;
    }
    Ok(())
}

/// Writes the columns, the record of the root frame, and that of each site.
fn write_tables<W: Write + Drop>(
    writer: &mut Writer<W>,
    fields: &mut ByteRecord,
    named: &Named<'_, '_>,
) -> Result<(), AllocError>
    requires ready { AwaitsRecord writer.old }
    requires names { HasGoodNames named.now.trace.now }
    ensures { OnOk result (Appends (text_written W.contents writer.old) (text_written W.contents writer.new) (csv_of_profile named.now.trace.now named.now.profile.now)) }
{
    write_columns(writer, &COLUMNS)?;
    let profile = named.profile;
    let (dag, path) = (profile.dag.root_row(), profile.path.root_row());
    let burdened_path = profile.burdened_path.root_row();
    write_rows(writer, fields, "(root)", &dag, &path, &burdened_path)?;
    write_sites(writer, fields, named)
}

/// The tables of a run as comma-separated values: a header of twenty-five columns, a record for the root frame under the
/// name `(root)`, and one for each site in the order of the trace. A record has the name, the eight numbers of its row
/// on the whole dag, the eight of its row on the first greatest path, and the eight of its row on the first greatest
/// burdened path. A name stands in double quotes where it has a comma or a double quote, with each quote of it doubled.
/// It takes memory and time linear in the text.
///
/// # Errors
///
/// An allocation failed.
pub fn csv_text(alloc: Global, named: &Named<'_, '_>) -> Result<Vec<u8>, AllocError>
    ensures { IfOk result (λ text. text.items ≡ csv_of_profile named.now.trace.now named.now.profile.now) }
{
    named.trace.keeps_limits();
    let mut writer = WriterBuilder::new().from_writer(Vec::new(alloc));
    let mut fields = ByteRecord::new(alloc);
    write_tables(&mut writer, &mut fields, named)?;
    writer.into_inner().map_err(|_| AllocError)
}
