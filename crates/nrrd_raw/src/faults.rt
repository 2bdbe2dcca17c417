//! Why a file gives no grid.

use iso_formats::Field;
use thiserror::Error;

/// Why a file gives no grid. Of the causes that its bytes have, the first in reading order is answered.
///
/// A line's number is counted from 1.
#[derive(Clone, Copy, Debug, PartialEq, Eq, Drop, Error)]
pub enum GridFault {
    /// The file does not begin with `NRRD0001` to `NRRD0005` and a line end.
    #[error("the file does not begin as an NRRD file")]
    Magic,
    /// The first 65,536 bytes hold no end of the header.
    #[error("the header does not end within 65,536 bytes")]
    HeaderLong,
    /// The file ends before its header does.
    #[error("the file ends within its header")]
    HeaderEnd,
    /// The line is no comment and no pair, and has no colon or no name before it.
    #[error("line {0} can't be read")]
    Line(u32),
    /// The field stood on an earlier line.
    #[error("line {0} repeats a field")]
    Repeated(u32),
    /// The sample type is none of those that are read.
    #[error("line {0} states no sample type that is read")]
    SampleType(u32),
    /// The dimension is not 2, 3 or 4.
    #[error("line {0} states no dimension from 2 to 4")]
    Dimension(u32),
    /// The sizes are not one to four numbers from 1 to 4,294,967,295, or not as many as the dimension.
    #[error("line {0} states no sizes that are read")]
    Sizes(u32),
    /// The encoding is not `raw`.
    #[error("line {0} states an encoding other than raw")]
    Encoding(u32),
    /// The byte order is neither `little` nor `big`.
    #[error("line {0} states no byte order")]
    Endian(u32),
    /// Lines or bytes before the samples are to be skipped.
    #[error("line {0} skips data")]
    Skip(u32),
    /// The samples stand in another file.
    #[error("line {0} names a data file")]
    Detached(u32),
    /// The header lacks a field.
    #[error("the field {} is missing", field_name(*.0))]
    Missing(Field),
    /// The grid has more than 2^27 samples: so many.
    #[error("{0} samples are too many")]
    TooLarge(u128),
    /// The file ends after so many of the samples' bytes.
    #[error("the file ends after {0} of the samples' bytes")]
    DataShort(u64),
    /// A byte follows the last sample.
    #[error("bytes follow the last sample")]
    Trailing,
    /// The shelf failed. Its count of faults after that call.
    #[error("the shelf failed, {0} times by now")]
    Shelf(u64),
    /// Memory was refused.
    #[error("out of memory")]
    Memory,
}

fn field_name(field: Field) -> &'static str {
    match field {
        Field::SampleType => "type",
        Field::Dimension => "dimension",
        Field::Sizes => "sizes",
        Field::Encoding => "encoding",
        Field::Endian => "endian",
    }
}
