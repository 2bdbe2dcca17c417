//! Why a file gives no mesh.

use thiserror::Error;

/// Why a file gives no mesh. Of a file that is not too long, the first word that does not fit is answered, with its
/// line, which is counted from 1.
#[derive(Clone, Copy, Debug, PartialEq, Eq, Drop, Error)]
pub enum OffFault {
    /// The file has more than 2^30 bytes.
    #[error("the file has more than 2^30 bytes")]
    Long,
    /// The file does not begin with `OFF`, or `nOFF` and 2, 3 or 4.
    #[error("line {0} begins no mesh that is read")]
    Header(u32),
    /// A number of vertices, faces or edges is none, or past 4294967295, where it is one of vertices or faces.
    #[error("line {0} has a wrong number of vertices, faces or edges")]
    Count(u32),
    /// A coordinate is no number.
    #[error("line {0} has a wrong coordinate")]
    Coordinate(u32),
    /// A face has another number of vertices than the mesh has dimensions.
    #[error("line {0} has a face with a wrong number of vertices")]
    FaceSize(u32),
    /// A vertex of a face is none.
    #[error("line {0} has a wrong vertex of a face")]
    Index(u32),
    /// A word follows the last face.
    #[error("line {0} has a word behind the last face")]
    Extra(u32),
    /// The file ends too early. The number of its lines.
    #[error("the file ends too early, behind {0} lines")]
    Short(u32),
    /// The shelf failed. Its count of faults after that call.
    #[error("the shelf failed, {0} times by now")]
    Shelf(u64),
    /// Memory was refused.
    #[error("out of memory")]
    Memory,
}
