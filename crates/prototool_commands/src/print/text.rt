//! A text of lines that are indented by levels.

use std::alloc::{AllocError, Global};
use std::fmt::Display;

/// A text that grows line by line, each indented by two spaces for each level that is open.
#[derive(Debug, Drop)]
pub struct Text {
    written: String,
    level: u32,
}

impl Text {
    /// No lines, in so many levels.
    pub fn new(alloc: Global, level: u32) -> Text {
        Text {
            written: String::new(alloc),
            level,
        }
    }

    /// No lines, in as many levels as are open here.
    pub fn beside(&self) -> Text {
        Text::new(*self.written.allocator(), self.level)
    }

    /// The allocator of the text.
    pub fn allocator(&self) -> Global {
        *self.written.allocator()
    }

    /// The lines.
    pub fn as_str(&self) -> &str {
        self.written.as_str()
    }

    /// The lines.
    pub fn into_string(self) -> String {
        self.written
    }

    /// Appends what a value prints.
    pub fn push<D: Display + Drop>(&mut self, value: D) -> Result<(), AllocError> {
        write!(self.written, "{value}")
    }

    /// Begins a line with a name.
    pub fn begin<D: Display + Drop>(&mut self, name: D) -> Result<(), AllocError> {
        for _ in 0..self.level {
            self.written.push_str("  ")?;
        }
        write!(self.written, "{name}")
    }

    /// Opens a level: a line of a name and a brace.
    pub fn open<D: Display + Drop>(&mut self, name: D) -> Result<(), AllocError> {
        self.begin(name)?;
        self.written.push_str(" {\n")?;
        self.level = self.level.saturating_add(1);
        Ok(())
    }

    /// Closes a level: a line of a brace.
    pub fn close(&mut self) -> Result<(), AllocError> {
        self.level = self.level.saturating_sub(1);
        self.begin("}\n")
    }

    /// Appends the bytes between quotes, with the escapes of C, and in three octal digits what is no character of ASCII.
    pub fn push_quoted(&mut self, bytes: &[u8]) -> Result<(), AllocError> {
        self.written.push_str("\"")?;
        for byte in bytes {
            self.push_escaped(*byte)?;
        }
        self.written.push_str("\"")
    }

    /// Appends a byte that stands between quotes.
    fn push_escaped(&mut self, byte: u8) -> Result<(), AllocError> {
        match byte {
            b'\n' => self.written.push_str("\\n"),
            b'\r' => self.written.push_str("\\r"),
            b'\t' => self.written.push_str("\\t"),
            b'"' => self.written.push_str("\\\""),
            b'\'' => self.written.push_str("\\'"),
            b'\\' => self.written.push_str("\\\\"),
            b' '..=b'~' => self.written.push(char::from(byte)),
            _ => write!(self.written, "\\{byte:03o}"),
        }
    }
}
