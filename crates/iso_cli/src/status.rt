//! How a run ends, and its exit code.

ghost use Rattle.std.specs.Prelude.{◌≡◌};
ghost use Rattle.nrrd_raw.specs.declared.faults.GridFault.{GridFault};
ghost use Rattle.off_read.specs.declared.faults.OffFault.{OffFault};
ghost use Rattle.iso_cli.specs.declared.status.Status.TheVariants.{Memory, ShelfFault, WriteFault};
ghost use Rattle.iso_cli.specs.StatusLines.{status_code};
ghost use Rattle.iso_cli.specs.StatusCauses.{grid_status, off_status, table_status};

use iso_base::{Failed, Memory as NoMemory};
use iso_formats::Field;
use mesh_audit::Finding;
use nrrd_raw::GridFault;
use off_read::OffFault;
use off_write::WriteFault;
use std::alloc::{AllocError, AllocFailed};
use table_file::TableFault;

/// How a run of the program ends. Nothing was put to the output unless it is `Done` or `WriteFault`.
#[derive(Clone, Copy, Debug, PartialEq, Eq, Drop)]
pub enum Status {
    /// The whole output was put.
    Done,
    /// Memory was refused.
    Memory,
    /// The words are no right list: the first wrong word, counted from 1.
    Usage(u32),
    /// A call of the shelf failed: its count of faults after that call.
    ShelfFault(u64),
    /// A call of the output failed: its count of faults after that call. A front of the output was put.
    WriteFault(u64),
    /// The table file is no table.
    TableForm(TableForm),
    /// The table is not accepted: the least label that fails a rule, and the least rule, from 1 to 6, that it fails.
    TableRefused { label: u32, rule: u8 },
    /// The grid file is no grid of samples.
    GridForm(GridCause),
    /// The grid has more than 2^27 samples: their number.
    GridLarge(u128),
    /// The table and the grid have different dimensions.
    Unfit { table: u8, grid: u8 },
    /// The mesh file is no mesh.
    MeshForm(OffCause),
    /// The simplices of the mesh are not glued: what is found in it, which is never `Clean`.
    AuditFault(Finding),
}

/// Why a file is no table.
#[derive(Clone, Copy, Debug, PartialEq, Eq, Drop)]
pub enum TableForm {
    /// It has more than 2^30 bytes, or where it begins as one of version 2, more than 2^20 bytes beyond that.
    Long,
    /// Its bytes are those of no table: the place of the fault, counted from 0, and what is wrong there.
    Fault { place: u64, cause: TableCause },
}

/// What is wrong at a place of a table file.
#[derive(Clone, Copy, Debug, PartialEq, Eq, Drop)]
pub enum TableCause {
    /// A wrong byte among the first eight.
    Magic,
    /// A wrong byte among the next eight, which name the kind of table.
    Kind,
    /// A byte of a tuple that is no edge's number.
    EdgeNumber,
    /// The file ends.
    Short,
    /// A whole table ended just before.
    Extra,
    /// In version 2 the number of records, a label or an offset.
    Index,
    /// In version 2 the count of a body.
    Count,
}

/// Why a file is no grid. Numbers of lines are counted from 1.
#[derive(Clone, Copy, Debug, PartialEq, Eq, Drop)]
pub enum GridCause {
    /// It does not begin with `NRRD0001` to `NRRD0005` and a line end.
    Magic,
    /// The first 65,536 bytes hold no end of the header.
    HeaderLong,
    /// The file ends within the header.
    HeaderEnd,
    /// The line is no comment, pair or field.
    Line(u32),
    /// The line repeats a field.
    Repeated(u32),
    /// The line has no sample type that is read.
    SampleType(u32),
    /// The line has no dimension from 2 to 4.
    Dimension(u32),
    /// The line does not have as many sizes as the dimension says, from 1 to 4294967295 each.
    Sizes(u32),
    /// The line has another encoding than raw.
    Encoding(u32),
    /// The line has no order of bytes.
    Endian(u32),
    /// The line skips lines or bytes.
    Skip(u32),
    /// The line names a data file.
    Detached(u32),
    /// A field is not there.
    Missing(Field),
    /// The file ends after so many data bytes, which are too few.
    DataShort(u64),
    /// A byte follows the last sample.
    Trailing,
}

/// Why a file is no mesh. Numbers of lines are counted from 1.
#[derive(Clone, Copy, Debug, PartialEq, Eq, Drop)]
pub enum OffCause {
    /// It has more than 2^30 bytes.
    Long,
    /// It does not begin with `OFF`, or `nOFF` and 2, 3 or 4.
    Header(u32),
    /// The line has a wrong number of vertices, faces or edges.
    Count(u32),
    /// The line has a wrong coordinate.
    Coordinate(u32),
    /// The line has a face with another number of vertices than the mesh has dimensions.
    FaceSize(u32),
    /// The line has a wrong vertex of a face.
    Index(u32),
    /// The line has a word behind the last face.
    Extra(u32),
    /// The file ends too early, behind so many lines.
    Short(u32),
}

impl Status {
    /// The exit code: 0 for `Done`, and a number of its own for each other status.
    pub fn code(&self) -> u8
        ensures { result ≡ status_code self.now }
    {
        match self {
            Status::Done => 0,
            Status::Memory => 1,
            Status::Usage(_) => 2,
            Status::ShelfFault(_) => 3,
            Status::WriteFault(_) => 4,
            Status::TableForm(_) => 5,
            Status::TableRefused { .. } => 6,
            Status::GridForm(_) => 7,
            Status::GridLarge(_) => 8,
            Status::Unfit { .. } => 9,
            Status::AuditFault(_) => 13,
            Status::MeshForm(_) => 14,
        }
    }
}

impl From<AllocError> for Status {
    ghost from_gives = { λ _ status. status ≡ Memory };

    fn from(_: AllocError) -> Self {
        Status::Memory
    }
}

impl<T: Drop> From<AllocFailed<T>> for Status {
    ghost from_gives = { λ _ status. status ≡ Memory };

    fn from(_: AllocFailed<T>) -> Self {
        Status::Memory
    }
}

impl From<NoMemory> for Status {
    ghost from_gives = { λ _ status. status ≡ Memory };

    fn from(_: NoMemory) -> Self {
        Status::Memory
    }
}

// Of a shelf: a sink's failure has its own type above `put`.
impl From<Failed> for Status {
    ghost from_gives = { λ failed status. status ≡ ShelfFault failed.count };

    fn from(failed: Failed) -> Self {
        Status::ShelfFault(failed.count)
    }
}

impl From<WriteFault> for Status {
    ghost from_gives = { λ fault status. status ≡ WriteFault fault.0 };

    fn from(fault: WriteFault) -> Self {
        Status::WriteFault(fault.0)
    }
}

impl From<TableFault> for Status {
    ghost from_gives = { λ fault status. status ≡ table_status fault };

    fn from(fault: TableFault) -> Self {
        match fault {
            TableFault::Magic(place) => Status::TableForm(TableForm::Fault {
                place,
                cause: TableCause::Magic,
            }),
            TableFault::Kind(place) => Status::TableForm(TableForm::Fault {
                place,
                cause: TableCause::Kind,
            }),
            TableFault::EdgeNumber(place) => Status::TableForm(TableForm::Fault {
                place,
                cause: TableCause::EdgeNumber,
            }),
            TableFault::Short(place) => Status::TableForm(TableForm::Fault {
                place,
                cause: TableCause::Short,
            }),
            TableFault::Extra(place) => Status::TableForm(TableForm::Fault {
                place,
                cause: TableCause::Extra,
            }),
            TableFault::Index(place) => Status::TableForm(TableForm::Fault {
                place,
                cause: TableCause::Index,
            }),
            TableFault::Count(place) => Status::TableForm(TableForm::Fault {
                place,
                cause: TableCause::Count,
            }),
            TableFault::Memory => Status::Memory,
        }
    }
}

impl From<GridFault> for Status {
    ghost from_gives = { λ fault status. status ≡ grid_status fault };

    fn from(fault: GridFault) -> Self {
        match fault {
            GridFault::Magic => Status::GridForm(GridCause::Magic),
            GridFault::HeaderLong => Status::GridForm(GridCause::HeaderLong),
            GridFault::HeaderEnd => Status::GridForm(GridCause::HeaderEnd),
            GridFault::Line(line) => Status::GridForm(GridCause::Line(line)),
            GridFault::Repeated(line) => Status::GridForm(GridCause::Repeated(line)),
            GridFault::SampleType(line) => Status::GridForm(GridCause::SampleType(line)),
            GridFault::Dimension(line) => Status::GridForm(GridCause::Dimension(line)),
            GridFault::Sizes(line) => Status::GridForm(GridCause::Sizes(line)),
            GridFault::Encoding(line) => Status::GridForm(GridCause::Encoding(line)),
            GridFault::Endian(line) => Status::GridForm(GridCause::Endian(line)),
            GridFault::Skip(line) => Status::GridForm(GridCause::Skip(line)),
            GridFault::Detached(line) => Status::GridForm(GridCause::Detached(line)),
            GridFault::Missing(field) => Status::GridForm(GridCause::Missing(field)),
            GridFault::TooLarge(count) => Status::GridLarge(count),
            GridFault::DataShort(count) => Status::GridForm(GridCause::DataShort(count)),
            GridFault::Trailing => Status::GridForm(GridCause::Trailing),
            GridFault::Shelf(count) => Status::ShelfFault(count),
            GridFault::Memory => Status::Memory,
        }
    }
}

impl From<OffFault> for Status {
    ghost from_gives = { λ fault status. status ≡ off_status fault };

    fn from(fault: OffFault) -> Self {
        match fault {
            OffFault::Long => Status::MeshForm(OffCause::Long),
            OffFault::Header(line) => Status::MeshForm(OffCause::Header(line)),
            OffFault::Count(line) => Status::MeshForm(OffCause::Count(line)),
            OffFault::Coordinate(line) => Status::MeshForm(OffCause::Coordinate(line)),
            OffFault::FaceSize(line) => Status::MeshForm(OffCause::FaceSize(line)),
            OffFault::Index(line) => Status::MeshForm(OffCause::Index(line)),
            OffFault::Extra(line) => Status::MeshForm(OffCause::Extra(line)),
            OffFault::Short(lines) => Status::MeshForm(OffCause::Short(lines)),
            OffFault::Shelf(count) => Status::ShelfFault(count),
            OffFault::Memory => Status::Memory,
        }
    }
}
