//! The samples behind a header, one slice of the last axis after another.

ghost use Rattle.std.specs.Prelude.{◌≡◌, ℕ, ◌≤◌, ◌<◌, ◌*◌, Ok, Err, true, false, IfOk, IfErr, OnErr, OnOk, IsTrue, IsNone, All, length, vec_len};
ghost use Rattle.iso_model.specs.Values.{product};
ghost use Rattle.iso_formats.specs.GridFile.{IsRegularHeader, sample_limit};
ghost use Rattle.iso_base.specs.Shelves.{IsSameShelf, TakesAtMost};
ghost use Rattle.nrrd_raw.specs.FaultCauses.{IsLarge};
ghost use Rattle.nrrd_raw.specs.GridFaultWords.{BlamesFairly, blame_of, is_data_fault, is_piece_fault};
ghost use Rattle.nrrd_raw.specs.Shapes.{InRange};
ghost use Rattle.nrrd_raw.specs.Slices.{slice_count, slice_size, slice_length, step_length, ReadsSlice, IsCutSlice, Gives, IsStepFault};
ghost use Rattle.nrrd_raw.specs.Undecided.{BlamesBefore};

use crate::faults::GridFault;
use crate::fields::headers::Header;
use crate::samples::grids::SAMPLE_LIMIT;
use crate::samples::reading::{PIECE, sample_count, see_end, take_samples};
use iso_base::Shelf;
use std::alloc::Global;
use std::marker::Model;

/// A reader of the samples behind a header, which holds one slice of the last axis at a time.
///
/// Contracts see the header, the number of slices given, and whether the reader has ended.
#[derive(Drop)]
pub struct SliceReader {
    header: Header,
    given: u64,
    ended: bool,
    piece: [u8; PIECE],
}

impl Model for SliceReader {
    ghost use Rattle.nrrd_raw.specs.Slices as Slices;

    ghost Value = { Slices.SliceReader };

    ghost view = { λ r. record { header = r.header; given = r.given; ended = r.ended } };

    ghost invariant = { λ r. Slices.IsRegularReader (record { header = r.header; given = r.given; ended = r.ended }) };
}

impl SliceReader {
    /// A reader that has given no slice. It is refused exactly where the grid has too many samples.
    pub fn new(header: &Header) -> Result<SliceReader, GridFault>
        requires { IsRegularHeader header.now }
        ensures made { IfOk result (λ reader. reader ≡ record { header = header.now; given = 0; ended = false }) }
        ensures large_alone { IsLarge header.now → result ≡ Err (GridFault.TooLarge (product header.now.sizes)) }
        ensures large_only { OnErr result (IsLarge header.now) }
    {
        let count = sample_count(header);
        if count > SAMPLE_LIMIT {
            return Err(GridFault::TooLarge(count));
        }
        Ok(SliceReader {
            header: *header,
            given: 0,
            ended: false,
            piece: [0; PIECE],
        })
    }

    /// Replaces `slice` by the samples of the next slice and answers true, or finds the end of the file behind the last
    /// slice and answers false. A refusal or a false ends the reader: each later step answers false and takes nothing.
    pub fn step<S: Shelf>(
        &mut self,
        _: Global,
        shelf: &mut S,
        slice: &mut Vec<i64>,
    ) -> Result<bool, GridFault>
        ensures shelf { IsSameShelf S.faults S.files S.sound shelf.old shelf.new }
        ensures blames { BlamesFairly S.faults shelf.old shelf.new result }
        ensures sound { S.sound shelf.old → IfErr result (λ fault. IsNone (blame_of fault)) }
        ensures causes { IfErr result (λ fault. IsTrue (is_data_fault fault)) }
        ensures steps { IfOk result (Gives self.old self.new (S.rest shelf.old) (S.rest shelf.new) slice.new.items) }
        ensures cause { IfErr result (IsStepFault self.old (S.rest shelf.old) (S.rest shelf.new)) }
        ensures ended { OnErr result (self.new ≡ record self.old { ended = true }) }
        ensures over { self.old.ended ≡ true → result ≡ Ok false }
        ensures untouched { self.old.ended ≡ true → shelf.new ≡ shelf.old }
        ensures taken { TakesAtMost (step_length self.old) (S.rest shelf.old) (S.rest shelf.new) }
        ensures undecided { BlamesBefore (step_length self.old) (S.rest shelf.old) (S.rest shelf.new) result }
    {
        if self.ended {
            return Ok(false);
        }
        self.ended = true;
        if self.given == number_of_slices(&self.header) {
            see_end(shelf)?;
            return Ok(false);
        }
        take_slice(shelf, &self.header, &mut self.piece, slice, self.given)?;
        self.given += 1;
        self.ended = false;
        Ok(true)
    }
}

/// The number of slices.
fn number_of_slices(header: &Header) -> u64
    requires { IsRegularHeader header.now }
    ensures { result ≡ slice_count header.now }
{
    header.sizes[usize::from(header.dims) - 1]
}

/// The number of samples of a slice.
fn samples_of_slice(header: &Header) -> usize
    requires regular { IsRegularHeader header.now }
    requires few { product header.now.sizes ≤ sample_limit }
    ensures { result ≡ slice_size header.now }
{
    (sample_count(header) / u128::from(number_of_slices(header))) as usize
}

/// Takes the samples of the slice behind so many others.
fn take_slice<S: Shelf>(
    shelf: &mut S,
    header: &Header,
    piece: &mut [u8; PIECE],
    slice: &mut Vec<i64>,
    given: u64,
) -> Result<(), GridFault>
    requires regular { IsRegularHeader header.now }
    requires few { product header.now.sizes ≤ sample_limit }
    requires outstanding { given < slice_count header.now }
    ensures shelf { IsSameShelf S.faults S.files S.sound shelf.old shelf.new }
    ensures blames { BlamesFairly S.faults shelf.old shelf.new result }
    ensures sound { S.sound shelf.old → IfErr result (λ fault. IsNone (blame_of fault)) }
    ensures causes { IfErr result (λ fault. IsTrue (is_piece_fault fault)) }
    ensures taken { TakesAtMost (slice_length header.now) (S.rest shelf.old) (S.rest shelf.new) }
    ensures undecided { BlamesBefore (slice_length header.now) (S.rest shelf.old) (S.rest shelf.new) result }
    ensures count { OnOk result (vec_len slice.new ≡ slice_size header.now) }
    ensures range { OnOk result (All InRange slice.new.items) }
    ensures read { OnOk result (ReadsSlice header.now (S.rest shelf.old) (S.rest shelf.new) slice.new.items) }
    ensures cut { IfErr result (IsCutSlice header.now given (S.rest shelf.old) (S.rest shelf.new)) }
{
    let size = samples_of_slice(header);
    let before = given * size as u64 * u64::from(header.width);
    match take_samples(shelf, header, piece, slice, size) {
        Err(GridFault::DataShort(count)) => Err(GridFault::DataShort(before + count)),
        answer => answer,
    }
}
