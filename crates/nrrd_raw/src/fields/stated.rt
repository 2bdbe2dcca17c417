//! What the lines of a header state.

ghost use Rattle.std.specs.Prelude.{◌≡◌, ◌≤◌, ◌&&◌, not, false, nat_lt, is_some, unwrap_or};
ghost use Rattle.std.specs.Option.{ForSome};

use crate::faults::GridFault;
use crate::fields::headers::Header;
use crate::fields::numerals::{dimension_of, is_zero, sizes_of};
use crate::fields::values::{Sample, Sizes};
use crate::fields::words::{Key, big_endian_of, is_raw, key_of, sample_of};
use crate::lines::content::{Content, content_of};
use iso_formats::Field;

/// The values of the fields so far, and the number of the line of the sizes.
#[derive(Clone, Copy, Drop)]
pub(crate) struct Stated {
    sample: Option<Sample>,
    dimension: Option<u8>,
    sizes: Option<(Sizes, u32)>,
    raw: bool,
    big: Option<bool>,
    ghost axes: { ForSome dimension (λ n. (2 ≤ n) × (n ≤ 4)) },
}

impl Stated {
    ghost use Rattle.std.specs.Prelude.{◌≡◌, ℕ, ◌+◌, ◌≤◌, false, List, [], length, drop, slice_index_or, is_some, IfErr, IfOk, IsTrue, IsNone, None};
    ghost use Rattle.std.specs.Str.{str_to_ascii_lowercase};
    ghost use Rattle.iso_formats.specs.declared.Field.TheVariants as field;
    ghost use Rattle.iso_formats.specs.HeaderLines as lines;
    ghost use Rattle.iso_formats.specs.GridFile.{IsRegularHeader};
    ghost use Rattle.nrrd_raw.specs.GridFaultWords.{is_header_fault, blame_of};
    ghost use Rattle.nrrd_raw.specs.FaultCauses.{cause_of};
    ghost use Rattle.nrrd_raw.specs.States.{States, AddsLine, AddsNamed, AddsField, HasCause, HasNamedCause, HasFieldCause, has_field, whole_fault};
    ghost use Rattle.nrrd_raw.specs.States.{HoldsOfStated, SpellWhereSound};

    /// Behind the first line nothing is stated.
    pub(crate) fn none() -> Stated
        ensures { (texts : List (List ℕ)) → length texts ≡ 1 → States result texts }
    {
        Stated {
            sample: None,
            dimension: None,
            sizes: None,
            raw: false,
            big: None,
        }
    }

    /// With a line more, or its cause.
    pub(crate) fn with_line(self, number: u32, text: &[u8]) -> Result<Stated, GridFault>
        ensures causes { IfErr result (λ fault. IsTrue (is_header_fault fault)) }
        ensures form { IfErr result (λ fault. IsNone (blame_of fault)) }
        ensures kept { IfOk result (λ next. AddsLine self next number (lines.content text.now)) }
        ensures cause { IfErr result (HasCause self number (lines.content text.now)) }
    {
        match content_of(text) {
            Content::PassedOver => Ok(self),
            Content::Field(name, value) => self.with_field(number, name, value),
            Content::Unreadable => Err(GridFault::Line(number)),
        }
    }

    fn with_field(self, number: u32, name: &[u8], value: &[u8]) -> Result<Stated, GridFault>
        ensures causes { IfErr result (λ fault. IsTrue (is_header_fault fault)) }
        ensures form { IfErr result (λ fault. IsNone (blame_of fault)) }
        ensures kept { IfOk result (λ next. AddsNamed self next number (str_to_ascii_lowercase name.now) value.now) }
        ensures cause { IfErr result (HasNamedCause self number (str_to_ascii_lowercase name.now) value.now) }
    {
        match key_of(name) {
            Key::Skip => {
                if is_zero(value) {
                    Ok(self)
                } else {
                    Err(GridFault::Skip(number))
                }
            }
            Key::DataFile => Err(GridFault::Detached(number)),
            Key::Read(field) => {
                if self.has(field) {
                    return Err(GridFault::Repeated(number));
                }
                self.with_value(number, field, value)
            }
            Key::Other => Ok(self),
        }
    }

    /// The field stood on an earlier line.
    fn has(&self, field: Field) -> bool
        ensures { result ≡ has_field self.now field }
    {
        match field {
            Field::SampleType => self.sample.is_some(),
            Field::Dimension => self.dimension.is_some(),
            Field::Sizes => self.sizes.is_some(),
            Field::Encoding => self.raw,
            Field::Endian => self.big.is_some(),
        }
    }

    fn with_value(self, number: u32, field: Field, value: &[u8]) -> Result<Stated, GridFault>
        requires { has_field self field ≡ false }
        ensures causes { IfErr result (λ fault. IsTrue (is_header_fault fault)) }
        ensures form { IfErr result (λ fault. IsNone (blame_of fault)) }
        ensures kept { IfOk result (λ next. AddsField self next number field value.now) }
        ensures cause { IfErr result (HasFieldCause self number field value.now) }
    {
        match field {
            Field::SampleType => self.with_sample_type(number, value),
            Field::Dimension => self.with_dimension(number, value),
            Field::Sizes => self.with_sizes(number, value),
            Field::Encoding => self.with_encoding(number, value),
            Field::Endian => self.with_endian(number, value),
        }
    }

    fn with_sample_type(self, number: u32, value: &[u8]) -> Result<Stated, GridFault>
        requires { is_some self.sample ≡ false }
        ensures causes { IfErr result (λ fault. IsTrue (is_header_fault fault)) }
        ensures form { IfErr result (λ fault. IsNone (blame_of fault)) }
        ensures kept { IfOk result (λ next. AddsField self next number field.SampleType value.now) }
        ensures cause { IfErr result (HasFieldCause self number field.SampleType value.now) }
    {
        let Some(sample) = sample_of(value) else {
            return Err(GridFault::SampleType(number));
        };
        Ok(Stated {
            sample: Some(sample),
            dimension: self.dimension,
            sizes: self.sizes,
            raw: self.raw,
            big: self.big,
        })
    }

    fn with_dimension(self, number: u32, value: &[u8]) -> Result<Stated, GridFault>
        requires { is_some self.dimension ≡ false }
        ensures causes { IfErr result (λ fault. IsTrue (is_header_fault fault)) }
        ensures form { IfErr result (λ fault. IsNone (blame_of fault)) }
        ensures kept { IfOk result (λ next. AddsField self next number field.Dimension value.now) }
        ensures cause { IfErr result (HasFieldCause self number field.Dimension value.now) }
    {
        let Some(dimension) = dimension_of(value) else {
            return Err(GridFault::Dimension(number));
        };
        Ok(Stated {
            sample: self.sample,
            dimension: Some(dimension),
            sizes: self.sizes,
            raw: self.raw,
            big: self.big,
        })
    }

    fn with_sizes(self, number: u32, value: &[u8]) -> Result<Stated, GridFault>
        requires { is_some self.sizes ≡ false }
        ensures causes { IfErr result (λ fault. IsTrue (is_header_fault fault)) }
        ensures form { IfErr result (λ fault. IsNone (blame_of fault)) }
        ensures kept { IfOk result (λ next. AddsField self next number field.Sizes value.now) }
        ensures cause { IfErr result (HasFieldCause self number field.Sizes value.now) }
    {
        let Some(sizes) = sizes_of(value) else {
            return Err(GridFault::Sizes(number));
        };
        Ok(Stated {
            sample: self.sample,
            dimension: self.dimension,
            sizes: Some((sizes, number)),
            raw: self.raw,
            big: self.big,
        })
    }

    fn with_encoding(self, number: u32, value: &[u8]) -> Result<Stated, GridFault>
        requires { self.raw ≡ false }
        ensures causes { IfErr result (λ fault. IsTrue (is_header_fault fault)) }
        ensures form { IfErr result (λ fault. IsNone (blame_of fault)) }
        ensures kept { IfOk result (λ next. AddsField self next number field.Encoding value.now) }
        ensures cause { IfErr result (HasFieldCause self number field.Encoding value.now) }
    {
        if !is_raw(value) {
            return Err(GridFault::Encoding(number));
        }
        Ok(Stated {
            sample: self.sample,
            dimension: self.dimension,
            sizes: self.sizes,
            raw: true,
            big: self.big,
        })
    }

    fn with_endian(self, number: u32, value: &[u8]) -> Result<Stated, GridFault>
        requires { is_some self.big ≡ false }
        ensures causes { IfErr result (λ fault. IsTrue (is_header_fault fault)) }
        ensures form { IfErr result (λ fault. IsNone (blame_of fault)) }
        ensures kept { IfOk result (λ next. AddsField self next number field.Endian value.now) }
        ensures cause { IfErr result (HasFieldCause self number field.Endian value.now) }
    {
        let Some(big) = big_endian_of(value) else {
            return Err(GridFault::Endian(number));
        };
        Ok(Stated {
            sample: self.sample,
            dimension: self.dimension,
            sizes: self.sizes,
            raw: self.raw,
            big: Some(big),
        })
    }

    /// The header, or the first field that is missing, or the line of the sizes where they are not as many as the
    /// dimension.
    pub(crate) fn header(self) -> Result<Header, GridFault>
        ensures causes { IfErr result (λ fault. IsTrue (is_header_fault fault)) }
        ensures form { IfErr result (λ fault. IsNone (blame_of fault)) }
        ensures regular { IfOk result IsRegularHeader }
        ensures whole { IfOk result (λ header. HoldsOfStated self (λ texts. whole_fault texts ≡ None)) }
        ensures spelled { IfOk result (λ header. HoldsOfStated self (SpellWhereSound header)) }
        ensures cause { IfErr result (λ fault. HoldsOfStated self (λ texts. cause_of fault ≡ whole_fault texts)) }
    {
        let Some(sample) = self.sample else {
            return Err(GridFault::Missing(Field::SampleType));
        };
        let Some(dims) = self.dimension else {
            return Err(GridFault::Missing(Field::Dimension));
        };
        let Some((sizes, line)) = self.sizes else {
            return Err(GridFault::Missing(Field::Sizes));
        };
        if !self.raw {
            return Err(GridFault::Missing(Field::Encoding));
        }
        if lacks_order(sample.width, self.big) {
            return Err(GridFault::Missing(Field::Endian));
        }
        if sizes.count != dims {
            return Err(GridFault::Sizes(line));
        }
        let places = sizes.places;
        Ok(Header {
            dims,
            sizes: places,
            width: sample.width,
            signed: sample.signed,
            big: order_of(sample.width, self.big),
        })
    }
}

/// Samples of more than one byte have an order of bytes, which is not stated.
fn lacks_order(width: u8, big: Option<bool>) -> bool
    ensures { result ≡ (nat_lt 1 width && not (is_some big)) }
{
    width > 1 && big.is_none()
}

/// The high byte stands first. A sample of one byte has no order.
fn order_of(width: u8, big: Option<bool>) -> bool
    ensures { result ≡ (nat_lt 1 width && unwrap_or big false) }
{
    width > 1 && big.unwrap_or(false)
}
