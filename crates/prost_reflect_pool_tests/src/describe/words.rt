//! Lines, and the words that they are made of.

use crate::describe::lists::Listed;
use prost_reflect::{Kind, WireType};
use std::alloc::{AllocError, Global};
use std::fmt::Display;

/// Lines that are written word by word. Once memory is refused nothing more is written, and the end says so.
#[derive(Drop)]
pub struct Lines {
    text: String,
    /// Where the last list begins.
    list: usize,
    outcome: Result<(), AllocError>,
}

impl Lines {
    /// No lines.
    pub fn new(alloc: Global) -> Lines {
        Lines {
            text: String::new(alloc),
            list: 0,
            outcome: Ok(()),
        }
    }

    /// Adds a text.
    pub fn add(&mut self, text: &str) {
        if self.outcome.is_ok() {
            self.outcome = self.text.push_str(text);
        }
    }

    /// Adds a text behind its label.
    pub fn word(&mut self, label: &str, text: &str) {
        self.add(label);
        self.add(text);
    }

    /// Adds a value behind its label.
    pub fn value<D: Display + Drop>(&mut self, label: &str, value: D) {
        self.add(label);
        if self.outcome.is_ok() {
            self.outcome = write!(self.text, "{value}");
        }
    }

    /// Adds the name of a definition behind its label.
    pub fn found<D: Listed + Drop>(&mut self, label: &str, found: Result<D, AllocError>) {
        match found {
            Ok(found) => self.word(label, found.listed()),
            Err(error) => self.fail(error),
        }
    }

    /// Adds the name of a definition behind its label, or `-` where there is none.
    pub fn found_or_none<D: Listed + Drop>(
        &mut self,
        label: &str,
        found: Result<Option<D>, AllocError>,
    ) {
        match found {
            Ok(Some(found)) => self.word(label, found.listed()),
            Ok(None) => self.word(label, "-"),
            Err(error) => self.fail(error),
        }
    }

    /// Notes that memory was refused.
    pub fn fail(&mut self, error: AllocError) {
        self.outcome = Err(error);
    }

    /// Adds the numbers of a path, joined by dots, behind their label.
    pub fn path(&mut self, label: &str, path: &[i32]) {
        self.add(label);
        let mut dot = "";
        for number in path {
            self.value(dot, *number);
            dot = ".";
        }
    }

    /// Begins a list behind its label.
    pub fn list(&mut self, label: &str) {
        self.add(label);
        self.list = self.text.len();
    }

    /// Adds an item to the list, behind a comma where the list has one.
    pub fn item(&mut self, text: &str) {
        if self.list < self.text.len() {
            self.add(",");
        }
        self.add(text);
    }

    /// Adds a range to the list, with a mark between its numbers.
    pub fn range<D: Display + Drop>(&mut self, start: D, mark: &str, end: D) {
        self.item("");
        self.value("", start);
        self.value(mark, end);
    }

    /// Ends the list, which is `-` where it has no items.
    pub fn end_list(&mut self) {
        if self.list == self.text.len() {
            self.add("-");
        }
    }

    /// The text of all lines.
    pub fn finish(&self) -> Result<&str, AllocError> {
        self.outcome?;
        Ok(self.text.as_str())
    }
}

/// A text, or `-` in the place of an empty one.
pub fn shown(text: &str) -> &str {
    if text.is_empty() { "-" } else { text }
}

/// Adds the kind's name, with that of its message type or enum, and the number of its wire type.
pub fn write_kind(lines: &mut Lines, kind: Result<Kind, AllocError>) {
    match kind {
        Ok(kind) => {
            let (sort, name) = kind_names(&kind);
            lines.word(" kind=", sort);
            lines.add(name);
            lines.value(" wire=", wire_number(kind.wire_type()));
        }
        Err(error) => lines.fail(error),
    }
}

/// The kind's name, and that of its message type or enum.
fn kind_names(kind: &Kind) -> (&str, &str) {
    match kind {
        Kind::Message(message) => ("Message:", message.full_name()),
        Kind::Enum(found) => ("Enum:", found.full_name()),
        Kind::Double => ("Double", ""),
        Kind::Float => ("Float", ""),
        Kind::Int32 => ("Int32", ""),
        Kind::Int64 => ("Int64", ""),
        Kind::Uint32 => ("Uint32", ""),
        Kind::Uint64 => ("Uint64", ""),
        Kind::Sint32 => ("Sint32", ""),
        Kind::Sint64 => ("Sint64", ""),
        Kind::Fixed32 => ("Fixed32", ""),
        Kind::Fixed64 => ("Fixed64", ""),
        Kind::Sfixed32 => ("Sfixed32", ""),
        Kind::Sfixed64 => ("Sfixed64", ""),
        Kind::Bool => ("Bool", ""),
        Kind::String => ("String", ""),
        Kind::Bytes => ("Bytes", ""),
    }
}

/// The wire type's number.
fn wire_number(wire_type: WireType) -> u32 {
    match wire_type {
        WireType::Varint => 0,
        WireType::SixtyFourBit => 1,
        WireType::LengthDelimited => 2,
        WireType::StartGroup => 3,
        WireType::EndGroup => 4,
        WireType::ThirtyTwoBit => 5,
    }
}
