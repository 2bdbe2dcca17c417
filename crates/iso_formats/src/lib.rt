//! The definitions of what files say: grid files, table files, texts of meshes, and the text of the demonstration.
//!
//! The crate has no code but an enum. Its definitions stand in `specs/`, and each has a comment that says in words what it says in symbols. In `proofs/` are
//! their worked cases, each computed by the checker (`*Tests`), and laws about them (`*Laws`). Bytes are numbers, files and texts are lists of bytes.
//!
//! - grid files: `HeaderLines` (the lines of a header), `GridFile` (what a header and its data spell), `GridFaults` (what is wrong with them);
//! - table files: `TableFile` (version 1, its bytes and faults), `TableFile2` (version 2, and the file of either version);
//! - meshes: `MeshText` (the text of a mesh), `MeshFile` (what a mesh file of anybody spells, and the first word of it that does not fit);
//! - the program: `Demo` (its demonstration).
//!
//! Grid files are a profile of the NRRD format of the teem library (<http://teem.sourceforge.net/nrrd/format.html>), and meshes are text in the formats OFF
//! and nOFF of Geomview (<http://www.geomview.org>). The table file is this project's own.
#![tactic(auto)]

/// A field of a grid file's header that may be missing.
#[derive(Clone, Copy, Debug, PartialEq, Eq)]
pub enum Field {
    /// `type`: the width of a sample and whether it is signed.
    SampleType,
    /// `dimension`: the number of axes.
    Dimension,
    /// `sizes`: the number of samples along each axis.
    Sizes,
    /// `encoding`: how the samples are written; only `raw` is read.
    Encoding,
    /// `endian`: the order of the bytes of a sample, needed where it has more than one.
    Endian,
}
