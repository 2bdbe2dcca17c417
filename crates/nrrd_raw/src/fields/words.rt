//! The words of a header, compared without regard to ASCII letter case.

ghost use Rattle.std.specs.Prelude.{◌≡◌, false, IsTrue, IfSome, IfNone};
ghost use Rattle.std.specs.Option.{option_map};
ghost use Rattle.std.specs.Str.{str_to_ascii_lowercase};
ghost use Rattle.iso_formats.specs.declared.Field.{Field};
ghost use Rattle.lists.specs.Orders.{same_list};
ghost use Rattle.iso_formats.specs.HeaderLines as lines;
ghost use Rattle.nrrd_raw.specs.Names.{IsKey, IsNoField, sample_view, signed_8, unsigned_8, signed_16, unsigned_16, signed_32, unsigned_32};

use crate::fields::values::Sample;
use iso_formats::Field;

/// Whether the text is the word.
pub(crate) fn is_word(text: &[u8], word: &[u8]) -> bool
    requires { str_to_ascii_lowercase word.now ≡ word.now }
    ensures { result ≡ same_list (str_to_ascii_lowercase text.now) word.now }
{
    text.eq_ignore_ascii_case(word)
}

/// The sample type that a value names.
pub(crate) fn sample_of(value: &[u8]) -> Option<Sample>
    ensures { option_map sample_view result ≡ lines.sample_of value.now }
{
    if names_signed_8(value) {
        return Some(Sample {
            width: 1,
            signed: true,
        });
    }
    if names_unsigned_8(value) {
        return Some(Sample {
            width: 1,
            signed: false,
        });
    }
    if names_signed_16(value) {
        return Some(Sample {
            width: 2,
            signed: true,
        });
    }
    if names_unsigned_16(value) {
        return Some(Sample {
            width: 2,
            signed: false,
        });
    }
    if names_signed_32(value) {
        return Some(Sample {
            width: 4,
            signed: true,
        });
    }
    if names_unsigned_32(value) {
        return Some(Sample {
            width: 4,
            signed: false,
        });
    }
    None
}

fn names_signed_8(value: &[u8]) -> bool
    ensures { result ≡ lines.is_among signed_8 value.now }
{
    is_word(value, b"signed char") || is_word(value, b"int8") || is_word(value, b"int8_t")
}

fn names_unsigned_8(value: &[u8]) -> bool
    ensures { result ≡ lines.is_among unsigned_8 value.now }
{
    is_word(value, b"uchar")
        || is_word(value, b"unsigned char")
        || is_word(value, b"uint8")
        || is_word(value, b"uint8_t")
}

fn names_signed_16(value: &[u8]) -> bool
    ensures { result ≡ lines.is_among signed_16 value.now }
{
    is_word(value, b"short")
        || is_word(value, b"short int")
        || is_word(value, b"signed short")
        || is_word(value, b"signed short int")
        || is_word(value, b"int16")
        || is_word(value, b"int16_t")
}

fn names_unsigned_16(value: &[u8]) -> bool
    ensures { result ≡ lines.is_among unsigned_16 value.now }
{
    is_word(value, b"ushort")
        || is_word(value, b"unsigned short")
        || is_word(value, b"unsigned short int")
        || is_word(value, b"uint16")
        || is_word(value, b"uint16_t")
}

fn names_signed_32(value: &[u8]) -> bool
    ensures { result ≡ lines.is_among signed_32 value.now }
{
    is_word(value, b"int")
        || is_word(value, b"signed int")
        || is_word(value, b"int32")
        || is_word(value, b"int32_t")
}

fn names_unsigned_32(value: &[u8]) -> bool
    ensures { result ≡ lines.is_among unsigned_32 value.now }
{
    is_word(value, b"uint")
        || is_word(value, b"unsigned int")
        || is_word(value, b"uint32")
        || is_word(value, b"uint32_t")
}

pub(crate) fn is_raw(value: &[u8]) -> bool
    ensures { result ≡ lines.is_raw value.now }
{
    is_word(value, b"raw")
}

/// Whether the high byte stands first.
pub(crate) fn big_endian_of(value: &[u8]) -> Option<bool>
    ensures { result ≡ lines.big_endian_of value.now }
{
    if is_word(value, b"big") {
        return Some(true);
    }
    if is_word(value, b"little") {
        return Some(false);
    }
    None
}

/// What a field is read as, by its name.
#[derive(Clone, Copy, Drop)]
pub(crate) enum Key {
    Skip,
    DataFile,
    Read(Field),
    Other,
}

pub(crate) fn key_of(name: &[u8]) -> Key
    ensures { IsKey (str_to_ascii_lowercase name.now) result }
{
    if names_skip(name) {
        return Key::Skip;
    }
    if names_data_file(name) {
        return Key::DataFile;
    }
    match field_of(name) {
        Some(field) => Key::Read(field),
        None => Key::Other,
    }
}

fn names_skip(name: &[u8]) -> bool
    ensures { result ≡ lines.is_among lines.skip_names name.now }
{
    is_word(name, b"line skip")
        || is_word(name, b"lineskip")
        || is_word(name, b"byte skip")
        || is_word(name, b"byteskip")
}

fn names_data_file(name: &[u8]) -> bool
    ensures { result ≡ lines.is_among lines.data_file_names name.now }
{
    is_word(name, b"data file") || is_word(name, b"datafile")
}

fn field_of(name: &[u8]) -> Option<Field>
    ensures some { IfSome result (λ known. str_to_ascii_lowercase name.now ≡ lines.field_name known) }
    ensures none { IfNone result (IsNoField (str_to_ascii_lowercase name.now)) }
{
    if is_word(name, b"type") {
        return Some(Field::SampleType);
    }
    if is_word(name, b"dimension") {
        return Some(Field::Dimension);
    }
    if is_word(name, b"sizes") {
        return Some(Field::Sizes);
    }
    if is_word(name, b"encoding") {
        return Some(Field::Encoding);
    }
    if is_word(name, b"endian") {
        return Some(Field::Endian);
    }
    None
}
