//! Samples from bytes.

ghost use Rattle.std.specs.Prelude.{◌≡◌, ℕ, ◌*◌, ◌≤◌, ℤ, pos, List, length, All, slice_index};
ghost use Rattle.std.specs.Int.{w8, w16, w32, cast_signed};
ghost use Rattle.iso_formats.specs.GridFile.{IsRegularHeader, samples_of};
ghost use Rattle.nrrd_raw.specs.Shapes.{InRange};
ghost use Rattle.nrrd_raw.specs.Forms.{HasValues};

use crate::fields::headers::Header;
use byteorder::{BigEndian, ByteOrder, LittleEndian};
use std::marker::PhantomData;

/// How a group of bytes spells a sample.
trait Form {
    ghost WIDTH: { ℕ };

    // The number that the bytes at the front of a list spell.
    ghost value: { List ℕ → ℤ };

    /// The bytes of a sample.
    const WIDTH: usize;

    /// The sample that the bytes at the front of `group` spell.
    fn sample(group: &[u8]) -> i64
        requires { WIDTH ≤ length group.now }
        ensures value { result ≡ value group.now }
        ensures range { InRange result };
}

struct Signed8;

struct Unsigned8;

struct Signed16<B: ByteOrder>(PhantomData<B>);

struct Unsigned16<B: ByteOrder>(PhantomData<B>);

struct Signed32<B: ByteOrder>(PhantomData<B>);

struct Unsigned32<B: ByteOrder>(PhantomData<B>);

impl Form for Signed8 {
    ghost WIDTH = { 1 };

    ghost value = { λ group. cast_signed w8 (slice_index group 0) };

    const WIDTH: usize = 1;

    fn sample(group: &[u8]) -> i64 {
        i64::from(group[0].cast_signed())
    }
}

impl Form for Unsigned8 {
    ghost WIDTH = { 1 };

    ghost value = { λ group. pos (slice_index group 0) };

    const WIDTH: usize = 1;

    fn sample(group: &[u8]) -> i64 {
        i64::from(group[0])
    }
}

impl<B: ByteOrder> Form for Signed16<B> {
    ghost WIDTH = { 2 };

    ghost value = { λ group. cast_signed w16 (B.number_of 2 group) };

    const WIDTH: usize = 2;

    fn sample(group: &[u8]) -> i64 {
        i64::from(B::read_i16(group))
    }
}

impl<B: ByteOrder> Form for Unsigned16<B> {
    ghost WIDTH = { 2 };

    ghost value = { λ group. pos (B.number_of 2 group) };

    const WIDTH: usize = 2;

    fn sample(group: &[u8]) -> i64 {
        i64::from(B::read_u16(group))
    }
}

impl<B: ByteOrder> Form for Signed32<B> {
    ghost WIDTH = { 4 };

    ghost value = { λ group. cast_signed w32 (B.number_of 4 group) };

    const WIDTH: usize = 4;

    fn sample(group: &[u8]) -> i64 {
        i64::from(B::read_i32(group))
    }
}

impl<B: ByteOrder> Form for Unsigned32<B> {
    ghost WIDTH = { 4 };

    ghost value = { λ group. pos (B.number_of 4 group) };

    const WIDTH: usize = 4;

    fn sample(group: &[u8]) -> i64 {
        i64::from(B::read_u32(group))
    }
}

/// Writes the samples that a piece of data bytes spells.
pub(crate) fn write_samples(header: &Header, piece: &[u8], samples: &mut [i64])
    requires regular { IsRegularHeader header.now }
    requires whole { length piece.now ≡ length samples.old * header.now.width }
    ensures values { samples.new ≡ samples_of header.now (length samples.old) piece.now }
    ensures range { All InRange samples.new }
{
    match (header.width, header.signed) {
        (1, true) => write_as::<Signed8>(piece, samples),
        (1, false) => write_as::<Unsigned8>(piece, samples),
        (2, true) if header.big => write_as::<Signed16<BigEndian>>(piece, samples),
        (2, true) => write_as::<Signed16<LittleEndian>>(piece, samples),
        (2, false) if header.big => write_as::<Unsigned16<BigEndian>>(piece, samples),
        (2, false) => write_as::<Unsigned16<LittleEndian>>(piece, samples),
        (_, true) if header.big => write_as::<Signed32<BigEndian>>(piece, samples),
        (_, true) => write_as::<Signed32<LittleEndian>>(piece, samples),
        (_, false) if header.big => write_as::<Unsigned32<BigEndian>>(piece, samples),
        (_, false) => write_as::<Unsigned32<LittleEndian>>(piece, samples),
    }
}

fn write_as<F: Form>(piece: &[u8], samples: &mut [i64])
    requires { length piece.now ≡ length samples.old * F.WIDTH }
    ensures values { HasValues F.value F.WIDTH piece.now samples.new (length samples.new) }
    ensures range { All InRange samples.new }
{
    for i in 0..samples.len() {
        samples[i] = F::sample(&piece[i * F::WIDTH..]);
    }
}
