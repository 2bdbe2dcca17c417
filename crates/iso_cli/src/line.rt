//! The line of a status on standard error.

ghost use Rattle.std.specs.Prelude.{◌≡◌, ◌+◌, ◌≤◌, ◌++◌, ◌∷◌, [], length};
ghost use Rattle.std.specs.Fmt.{decimal};
ghost use Rattle.iso_cli.specs.StatusLines.{status_line, grid_line, table_line, field_name, table_cause_name};
ghost use Rattle.iso_cli.specs.StatusLines.{audit_line, face_line, mesh_line};

use crate::status::{GridCause, OffCause, Status, TableCause, TableForm};
use arrayvec::ArrayString;
use iso_formats::Field;
use itoa::Integer;
use mesh_audit::Finding;

/// The line on standard error, with its line feed; empty for `Done`.
pub fn status_text(status: &Status) -> ArrayString<128>
    ensures { result.bytes ≡ status_line status.now }
{
    match status {
        Status::Done => ArrayString::new(),
        Status::Memory => line("out of memory"),
        Status::Usage(word) => counted("usage: word ", *word),
        Status::ShelfFault(count) => counted("shelf fault: ", *count),
        Status::WriteFault(count) => counted("write fault: ", *count),
        Status::TableForm(form) => table_text(form),
        Status::TableRefused { label, rule } => table_refused(*label, *rule),
        Status::GridForm(cause) => grid_text(cause),
        Status::GridLarge(count) => counted("grid large: ", *count),
        Status::Unfit { table, grid } => unfit(*table, *grid),
        Status::MeshForm(cause) => mesh_text(cause),
        Status::AuditFault(finding) => audit_text(finding),
    }
}

fn line(words: &str) -> ArrayString<128>
    requires { length words.now ≤ 64 }
    ensures { result.bytes ≡ words.now ++ 10 ∷ [] }
{
    let mut text = ArrayString::new();
    text.push_str(words);
    text.push_str("\n");
    text
}

/// Words, a number, and a line feed.
pub fn counted<I: Integer>(words: &str, count: I) -> ArrayString<128>
    requires { length words.now + I.MAX_STR_LEN ≤ 127 }
    ensures { result.bytes ≡ words.now ++ I.text count ++ 10 ∷ [] }
{
    let mut text = ArrayString::new();
    text.push_str(words);
    let mut digits = itoa::Buffer::new();
    text.push_str(digits.format(count));
    text.push_str("\n");
    text
}

fn table_cause(cause: TableCause) -> &'static str
    ensures name { result.now ≡ table_cause_name cause }
    ensures short { length result.now ≤ 11 }
{
    match cause {
        TableCause::Magic => "magic",
        TableCause::Kind => "kind",
        TableCause::EdgeNumber => "edge number",
        TableCause::Short => "short",
        TableCause::Extra => "extra",
        TableCause::Index => "index",
        TableCause::Count => "count",
    }
}

fn table_text(form: &TableForm) -> ArrayString<128>
    ensures { result.bytes ≡ table_line form.now }
{
    match form {
        TableForm::Long => line("table form: long"),
        TableForm::Fault { place, cause } => table_fault(*place, *cause),
    }
}

fn table_fault(place: u64, cause: TableCause) -> ArrayString<128>
    ensures { result.bytes ≡ table_line (TableForm.Fault place cause) }
{
    let mut text = ArrayString::new();
    text.push_str("table form: ");
    text.push_str(table_cause(cause));
    text.push_str(" ");
    let mut digits = itoa::Buffer::new();
    text.push_str(digits.format(place));
    text.push_str("\n");
    text
}

fn table_refused(label: u32, rule: u8) -> ArrayString<128>
    ensures { result.bytes ≡ status_line (Status.TableRefused label rule) }
{
    let mut text = ArrayString::new();
    text.push_str("table refused: label ");
    let mut digits = itoa::Buffer::new();
    text.push_str(digits.format(label));
    text.push_str(" rule ");
    let mut digits = itoa::Buffer::new();
    text.push_str(digits.format(rule));
    text.push_str("\n");
    text
}

fn grid_text(cause: &GridCause) -> ArrayString<128>
    ensures { result.bytes ≡ grid_line cause.now }
{
    match cause {
        GridCause::Magic => line("grid form: magic"),
        GridCause::HeaderLong => line("grid form: header long"),
        GridCause::HeaderEnd => line("grid form: header end"),
        GridCause::Line(number) => counted("grid form: line ", *number),
        GridCause::Repeated(number) => counted("grid form: repeated ", *number),
        GridCause::SampleType(number) => counted("grid form: type ", *number),
        GridCause::Dimension(number) => counted("grid form: dimension ", *number),
        GridCause::Sizes(number) => counted("grid form: sizes ", *number),
        GridCause::Encoding(number) => counted("grid form: encoding ", *number),
        GridCause::Endian(number) => counted("grid form: endian ", *number),
        GridCause::Skip(number) => counted("grid form: skip ", *number),
        GridCause::Detached(number) => counted("grid form: detached ", *number),
        GridCause::Missing(field) => missing(*field),
        GridCause::DataShort(count) => counted("grid form: short ", *count),
        GridCause::Trailing => line("grid form: trailing"),
    }
}

fn missing(field: Field) -> ArrayString<128>
    ensures { result.bytes ≡ grid_line (GridCause.Missing field) }
{
    line(match field {
        Field::SampleType => "grid form: missing type",
        Field::Dimension => "grid form: missing dimension",
        Field::Sizes => "grid form: missing sizes",
        Field::Encoding => "grid form: missing encoding",
        Field::Endian => "grid form: missing endian",
    })
}

fn unfit(table: u8, grid: u8) -> ArrayString<128>
    ensures { result.bytes ≡ status_line (Status.Unfit table grid) }
{
    let mut text = ArrayString::new();
    text.push_str("unfit: table ");
    let mut digits = itoa::Buffer::new();
    text.push_str(digits.format(table));
    text.push_str(" grid ");
    let mut digits = itoa::Buffer::new();
    text.push_str(digits.format(grid));
    text.push_str("\n");
    text
}

fn mesh_text(cause: &OffCause) -> ArrayString<128>
    ensures { result.bytes ≡ mesh_line cause.now }
{
    match cause {
        OffCause::Long => line("mesh form: long"),
        OffCause::Header(number) => counted("mesh form: header ", *number),
        OffCause::Count(number) => counted("mesh form: count ", *number),
        OffCause::Coordinate(number) => counted("mesh form: coordinate ", *number),
        OffCause::FaceSize(number) => counted("mesh form: face size ", *number),
        OffCause::Index(number) => counted("mesh form: index ", *number),
        OffCause::Extra(number) => counted("mesh form: extra ", *number),
        OffCause::Short(lines) => counted("mesh form: short ", *lines),
    }
}

fn audit_text(finding: &Finding) -> ArrayString<128>
    ensures { result.bytes ≡ audit_line finding.now }
{
    match finding {
        Finding::Clean { boundary } => counted("audit fault: clean ", *boundary),
        Finding::Repeat { simplex } => counted("audit fault: repeat simplex ", *simplex),
        Finding::Face {
            simplex,
            place,
            count,
            sum,
        } => face_text(*simplex, *place, *count, *sum),
        Finding::Link { vertex } => counted("audit fault: link vertex ", *vertex),
    }
}

fn face_text(simplex: u32, place: u8, count: u64, sum: i64) -> ArrayString<128>
    ensures { result.bytes ≡ face_line simplex place count sum }
{
    let mut text = ArrayString::new();
    text.push_str("audit fault: face simplex ");
    let mut digits = itoa::Buffer::new();
    text.push_str(digits.format(simplex));
    text.push_str(" place ");
    let mut digits = itoa::Buffer::new();
    text.push_str(digits.format(place));
    text.push_str(" count ");
    let mut digits = itoa::Buffer::new();
    text.push_str(digits.format(count));
    text.push_str(" sum ");
    let mut digits = itoa::Buffer::new();
    text.push_str(digits.format(sum));
    text.push_str("\n");
    text
}
