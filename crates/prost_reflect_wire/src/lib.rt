//! The wire format of Protocol Buffers: definitions, readers and writers.
//!
//! The definitions in `specs/` say what the bytes of a message are and mean, in the terms of the encoding guide; every contract
//! of the library cites them. The readers promise to read exactly what they say, and to name a fault that the bytes have where
//! they refuse; the writers append the shortest spelling, or leave the output as it was.
//!
//! Begin with `specs/Record` and `specs/Meaning` for the definitions, and with `varint`, `key` and `payload` for the code.
//! `unknown` has unknown fields and sets of them, which users see; `sink`, `blocks` and `buffer` are what is written to, from
//! the last byte on.
#![tactic(auto)]

mod blocks;
mod buffer;
mod error;
mod key;
pub mod laws;
mod payload;
mod sink;
mod unknown;
mod varint;

pub use buffer::BackBuffer;
pub use error::{DecodeError, EncodeError};
pub use key::{FieldNumber, WireType, decode_key, key_value};
pub use payload::{
    decode_delimited, decode_fixed32, decode_fixed64, low_i32, low_u32, sign_extended, unzigzag32,
    unzigzag64, zigzag32, zigzag64,
};
pub use sink::{ByteSink, LengthSink, Sink, write_key};
pub use unknown::{
    RECURSION_LIMIT, UnknownField, UnknownFieldSet, UnknownFieldValue, decode_value,
    prepend_fields, skip_value, write_field, write_fields,
};
pub use varint::{decode_varint, decode_varint_plain, varint_len};
