//! What a command line asks for.

/// The word before hex digits.
const HEX_FLAG: &str = "--hex";

/// The word between paths of names and the path of a file.
const FILE_FLAG: &str = "--";

/// Where the bytes of a message come from.
#[derive(Clone, Copy, Debug, PartialEq, Eq)]
pub enum Source<'a> {
    /// The standard input.
    StandardInput,
    /// The file of the path.
    File(&'a String),
    /// Hex digits, two for each byte.
    Hex(&'a String),
}

impl<'a> Source<'a> {
    /// The source that the last words of a command line name: none for the standard input, the path of a file, or `--hex`
    /// and digits.
    pub fn parse(words: &'a [String]) -> Option<Source<'a>> {
        match words {
            [] => Some(Source::StandardInput),
            [path] if path.as_str() != HEX_FLAG => Some(Source::File(path)),
            [flag, digits] if flag.as_str() == HEX_FLAG => Some(Source::Hex(digits)),
            _ => None,
        }
    }
}

/// What a command line asks for.
#[derive(Clone, Copy, Debug, PartialEq, Eq)]
pub enum Command<'a> {
    /// Print a message of the message type of the name in the descriptor set.
    Print {
        /// The file of the descriptor set, or `-`.
        set: &'a String,
        /// The full name of the message type.
        name: &'a String,
        /// Where the message comes from.
        source: Source<'a>,
    },
    /// Print a message whose type is not known.
    PrintRaw {
        /// Where the message comes from.
        source: Source<'a>,
    },
    /// Compare the message types of two descriptor sets.
    Compare {
        /// The file of the older descriptor set, or `-`.
        older: &'a String,
        /// The file of the newer descriptor set, or `-`.
        newer: &'a String,
        /// The full name of the one message type that is compared.
        name: Option<&'a String>,
    },
    /// Clear fields of a message of the message type of the name in the descriptor set.
    Redact {
        /// The file of the descriptor set, or `-`.
        set: &'a String,
        /// The full name of the message type.
        name: &'a String,
        /// The paths of names that lead to the fields.
        paths: &'a [String],
        /// Where the message comes from.
        source: Source<'a>,
    },
}

impl<'a> Command<'a> {
    /// What the words, given without the program's name, ask for.
    pub fn parse(words: &'a [String]) -> Option<Command<'a>> {
        let (verb, rest) = words.split_first()?;
        match verb.as_str() {
            "print" => Command::parse_print(rest),
            "compare" => Command::parse_compare(rest),
            "redact" => Command::parse_redact(rest),
            _ => None,
        }
    }

    /// What the words after `print` ask for: `[SET NAME] [FILE | --hex DIGITS]`.
    fn parse_print(words: &'a [String]) -> Option<Command<'a>> {
        if let Some(source) = Source::parse(words) {
            return Some(Command::PrintRaw { source });
        }
        match words {
            [set, name, rest @ ..] if set.as_str() != HEX_FLAG => {
                let source = Source::parse(rest)?;
                Some(Command::Print { set, name, source })
            }
            _ => None,
        }
    }

    /// What the words after `compare` ask for: `OLDER NEWER [NAME]`.
    fn parse_compare(words: &'a [String]) -> Option<Command<'a>> {
        match words {
            [older, newer] => Some(Command::Compare {
                older,
                newer,
                name: None,
            }),
            [older, newer, name] => Some(Command::Compare {
                older,
                newer,
                name: Some(name),
            }),
            _ => None,
        }
    }

    /// What the words behind `redact` ask for: `SET NAME PATH.. [-- FILE | --hex DIGITS]`.
    fn parse_redact(words: &'a [String]) -> Option<Command<'a>> {
        let [set, name, rest @ ..] = words else {
            return None;
        };
        let (paths, source) = Command::parse_paths(rest);
        if paths.is_empty() {
            return None;
        }
        Some(Command::Redact {
            set,
            name,
            paths,
            source,
        })
    }

    /// The paths of names, and the source that the last two words name, if they do.
    fn parse_paths(words: &'a [String]) -> (&'a [String], Source<'a>) {
        match words {
            [paths @ .., flag, path] if flag.as_str() == FILE_FLAG => (paths, Source::File(path)),
            [paths @ .., flag, digits] if flag.as_str() == HEX_FLAG => {
                (paths, Source::Hex(digits))
            }
            _ => (words, Source::StandardInput),
        }
    }
}
