//! The fields of a header: their words and numbers, and what all lines state together.

pub(crate) mod headers;
pub(crate) mod judge;
mod numerals;
mod stated;
mod values;
mod words;
