//! Reading the samples of a grid file from a shelf.

ghost use Rattle.std.specs.Prelude.{◌≡◌, ℕ, ◌++◌, IfSome, ◌+◌, ◌*◌, ◌≤◌, ◌<◌, ◌^◌, Err, IfOk, IfErr, OnOk, IsTrue, All, length, vec_len, IsNone};
ghost use Rattle.iso_model.specs.Values.{IsRegularGrid, product};
ghost use Rattle.iso_formats.specs.GridFile.{IsRegularHeader, SpellsSamples, sample_limit, samples_of};
ghost use Rattle.iso_formats.specs.GridFaults.{HasSampleFault};
ghost use Rattle.std.specs.Io.KnownBytes.{IsAtEnd, Keeps};
ghost use Rattle.iso_base.specs.Shelves.{IsSameShelf, TakesAtMost};
ghost use Rattle.nrrd_raw.specs.FaultCauses.{ReadsSamples, ReadsMore, IsCutOff, IsTrailing, NamesCause, IsLarge, IsLargeCount, data_length};
ghost use Rattle.nrrd_raw.specs.GridFaultWords.{BlamesFairly, blame_of, is_sample_fault, is_piece_fault, is_end_fault};
ghost use Rattle.nrrd_raw.specs.Shapes.{InRange};
ghost use Rattle.nrrd_raw.specs.Undecided.{BlamesWhile, BlamesBefore, BlamesUntouched, IsOpenData};

use crate::faults::GridFault;
use crate::fields::headers::Header;
use crate::pieces::{fill, take_byte};
use crate::samples::decode::write_samples;
use crate::samples::grids::{Grid, SAMPLE_LIMIT, area};
use iso_base::Shelf;
use std::alloc::Global;

/// The bytes that are taken at a time, a number of whole samples of each width.
pub(crate) const PIECE: usize = 1 << 16;

/// Reads the samples that stand behind a header, up to the end of the file.
pub fn read_samples<S: Shelf>(
    alloc: Global,
    shelf: &mut S,
    header: &Header,
) -> Result<Grid, GridFault>
    requires { IsRegularHeader header.now }
    ensures shelf { IsSameShelf S.faults S.files S.sound shelf.old shelf.new }
    ensures blames { BlamesFairly S.faults shelf.old shelf.new result }
    ensures sound { S.sound shelf.old → IfErr result (λ fault. IsNone (blame_of fault)) }
    ensures causes { IfErr result (λ fault. IsTrue (is_sample_fault fault)) }
    ensures large_alone { IsLarge header.now → result ≡ Err (GridFault.TooLarge (product header.now.sizes)) }
    ensures large_only { (count : ℕ) → result ≡ Err (GridFault.TooLarge count) → IsLargeCount header.now count }
    ensures untouched { IsLarge header.now → shelf.new ≡ shelf.old }
    ensures taken { TakesAtMost (data_length header.now + 1) (S.rest shelf.old) (S.rest shelf.new) }
    ensures undecided { BlamesWhile (IsOpenData header.now) (S.rest shelf.old) (S.rest shelf.new) result }
    ensures sizes { IfOk result (λ grid. grid.sizes ≡ header.now.sizes) }
    ensures spelled { IfSome (S.rest shelf.old) (λ bytes. IfOk result (SpellsSamples header.now bytes)) }
    ensures cause { NamesCause (HasSampleFault header.now) (S.rest shelf.old) result }
    ensures whole { OnOk result (IsAtEnd (S.rest shelf.new)) }
    ensures regular { IfOk result IsRegularGrid }
{
    let count = sample_count(header);
    if count > SAMPLE_LIMIT {
        return Err(GridFault::TooLarge(count));
    }
    let mut samples = Vec::new(alloc);
    let mut piece = [0u8; PIECE];
    take_samples(shelf, header, &mut piece, &mut samples, count as usize)?;
    see_end(shelf)?;
    Ok(Grid {
        dims: header.dims,
        sizes: header.sizes,
        samples,
    })
}

/// The product of the sizes.
pub(crate) fn sample_count(header: &Header) -> u128
    requires { IsRegularHeader header.now }
    ensures { result ≡ product header.now.sizes }
{
    let sizes = &header.sizes;
    area(sizes[0], sizes[1]) * area(sizes[2], sizes[3])
}

/// Takes so many samples, piece by piece, in place of those in `samples`.
pub(crate) fn take_samples<S: Shelf>(
    shelf: &mut S,
    header: &Header,
    piece: &mut [u8; PIECE],
    samples: &mut Vec<i64>,
    count: usize,
) -> Result<(), GridFault>
    requires regular { IsRegularHeader header.now }
    requires few { count ≤ 2 ^ 27 }
    ensures shelf { IsSameShelf S.faults S.files S.sound shelf.old shelf.new }
    ensures blames { BlamesFairly S.faults shelf.old shelf.new result }
    ensures sound { S.sound shelf.old → IfErr result (λ fault. IsNone (blame_of fault)) }
    ensures causes { IfErr result (λ fault. IsTrue (is_piece_fault fault)) }
    ensures taken { TakesAtMost (count * header.now.width) (S.rest shelf.old) (S.rest shelf.new) }
    ensures undecided { BlamesBefore (count * header.now.width) (S.rest shelf.old) (S.rest shelf.new) result }
    ensures count { OnOk result (vec_len samples.new ≡ count) }
    ensures range { OnOk result (All InRange samples.new.items) }
    ensures read { OnOk result (ReadsSamples header.now (S.rest shelf.old) (S.rest shelf.new) count samples.new.items) }
    ensures cut { IfErr result (IsCutOff header.now (S.rest shelf.old) (S.rest shelf.new) 0 count) }
{
    let width = usize::from(header.width);
    samples.clear();
    'pieces: while samples.len() < count {
        let more = (PIECE / width).min(count - samples.len());
        take_piece(
            shelf,
            header,
            &mut piece[..more * width],
            samples,
            more,
            count,
        )?;
    }
    Ok(())
}

/// Sees that the file ends here.
pub(crate) fn see_end<S: Shelf>(shelf: &mut S) -> Result<(), GridFault>
    ensures shelf { IsSameShelf S.faults S.files S.sound shelf.old shelf.new }
    ensures blames { BlamesFairly S.faults shelf.old shelf.new result }
    ensures sound { S.sound shelf.old → IfErr result (λ fault. IsNone (blame_of fault)) }
    ensures causes { IfErr result (λ fault. IsTrue (is_end_fault fault)) }
    ensures taken { TakesAtMost 1 (S.rest shelf.old) (S.rest shelf.new) }
    ensures undecided { BlamesUntouched (S.rest shelf.old) (S.rest shelf.new) result }
    ensures ended { OnOk result (Keeps (S.rest shelf.old) (S.rest shelf.new) × IsAtEnd (S.rest shelf.new)) }
    ensures trailing { IfErr result (IsTrailing (S.rest shelf.old) (S.rest shelf.new)) }
{
    match take_byte(shelf)? {
        Some(_) => Err(GridFault::Trailing),
        None => Ok(()),
    }
}

/// Fills `piece` with the bytes of `more` samples, and appends them to `into`. There are to be `count` in the end.
fn take_piece<S: Shelf>(
    shelf: &mut S,
    header: &Header,
    piece: &mut [u8],
    into: &mut Vec<i64>,
    more: usize,
    count: usize,
) -> Result<(), GridFault>
    requires regular { IsRegularHeader header.now }
    requires whole { length piece.old ≡ more * header.now.width }
    requires room { vec_len into.old + more ≤ count }
    requires few { count ≤ 2 ^ 27 }
    ensures shelf { IsSameShelf S.faults S.files S.sound shelf.old shelf.new }
    ensures blames { BlamesFairly S.faults shelf.old shelf.new result }
    ensures sound { S.sound shelf.old → IfErr result (λ fault. IsNone (blame_of fault)) }
    ensures causes { IfErr result (λ fault. IsTrue (is_piece_fault fault)) }
    ensures taken { TakesAtMost (length piece.new) (S.rest shelf.old) (S.rest shelf.new) }
    ensures undecided { BlamesBefore (length piece.old) (S.rest shelf.old) (S.rest shelf.new) result }
    ensures len { OnOk result (vec_len into.new ≡ vec_len into.old + more) }
    ensures range { All InRange into.old.items → OnOk result (All InRange into.new.items) }
    ensures read { OnOk result (ReadsMore header.now more S.rest shelf.old shelf.new into.old.items into.new.items) }
    ensures cut { IfErr result (IsCutOff header.now (S.rest shelf.old) (S.rest shelf.new) (vec_len into.old) more) }
{
    let width = usize::from(header.width);
    let came = fill(shelf, piece)?;
    if came < piece.len() {
        return Err(GridFault::DataShort((into.len() * width + came) as u64));
    }
    append(into, header, piece, more, count)
}

/// Appends the samples of a piece, so many. There are to be `count` in the end.
fn append(
    samples: &mut Vec<i64>,
    header: &Header,
    piece: &[u8],
    more: usize,
    count: usize,
) -> Result<(), GridFault>
    requires regular { IsRegularHeader header.now }
    requires whole { length piece.now ≡ more * header.now.width }
    requires room { vec_len samples.old + more ≤ count }
    ensures memory { IfErr result (λ fault. fault ≡ GridFault.Memory) }
    ensures len { OnOk result (vec_len samples.new ≡ vec_len samples.old + more) }
    ensures range { All InRange samples.old.items → OnOk result (All InRange samples.new.items) }
    ensures items { OnOk result (samples.new.items ≡ samples.old.items ++ samples_of header.now more piece.now) }
{
    let start = samples.len();
    make_room(samples, more, count)?;
    if samples.resize(start + more, 0).is_err() {
        return Err(GridFault::Memory);
    }
    write_samples(header, piece, &mut samples[start..]);
    Ok(())
}

/// Makes room for `more` samples of `count` in the end: where there is none, twice the room, but no more than for all
/// of them.
fn make_room(samples: &mut Vec<i64>, more: usize, count: usize) -> Result<(), GridFault>
    requires { vec_len samples.old + more ≤ count }
    ensures memory { IfErr result (λ fault. fault ≡ GridFault.Memory) }
    ensures items { samples.new.items ≡ samples.old.items }
    ensures len { vec_len samples.new ≡ vec_len samples.old }
{
    let left = count - samples.len();
    let room = samples.capacity().max(more).min(left);
    if samples.capacity() - samples.len() < more && samples.reserve_exact(room).is_err() {
        return Err(GridFault::Memory);
    }
    Ok(())
}
