//! What a command line asks for.

ghost use Rattle.std.specs.Prelude.{IfSome, IfNone, map, string_bytes};
ghost use Rattle.protorelay_commands.specs.CommandLine.{AsksFor, AsksForNone, AsksForNoReading, AsksForNoEdit};

/// What a command line asks for.
#[derive(Clone, Copy)]
pub enum Command<'a> {
    /// Read the bytes that the digits spell by the message type of the name in the descriptor set, and write the message again.
    Relay {
        set: &'a String,
        name: &'a String,
        digits: &'a String,
    },
    /// Read them likewise, and name the numbers that are present.
    Show {
        set: &'a String,
        name: &'a String,
        digits: &'a String,
    },
    /// Read them likewise, set the value that the text spells at the path, and write the message again.
    Edit {
        set: &'a String,
        name: &'a String,
        digits: &'a String,
        path: &'a String,
        text: &'a String,
    },
}

impl<'a> Command<'a> {
    /// What the words, given without the program's name, ask for.
    pub fn parse(words: &'a [String]) -> Option<Command<'a>>
        ensures found { IfSome result (AsksFor (map string_bytes words.now)) }
        ensures none { IfNone result (AsksForNone (map string_bytes words.now)) }
    {
        if let Some(command) = Command::parse_edit(words) {
            return Some(command);
        }
        Command::parse_reading(words)
    }

    /// What a verb that only reads, and three words behind it, ask for.
    fn parse_reading(words: &'a [String]) -> Option<Command<'a>>
        ensures found { IfSome result (AsksFor (map string_bytes words.now)) }
        ensures none { IfNone result (AsksForNoReading (map string_bytes words.now)) }
    {
        let [verb, set, name, digits] = words else {
            return None;
        };
        match verb.as_str() {
            "relay" => Some(Command::Relay { set, name, digits }),
            "show" => Some(Command::Show { set, name, digits }),
            _ => None,
        }
    }

    /// What `edit` and five words behind it ask for.
    fn parse_edit(words: &'a [String]) -> Option<Command<'a>>
        ensures found { IfSome result (AsksFor (map string_bytes words.now)) }
        ensures none { IfNone result (AsksForNoEdit (map string_bytes words.now)) }
    {
        let [verb, set, name, digits, path, text] = words else {
            return None;
        };
        if verb.as_str() == "edit" {
            Some(Command::Edit {
                set,
                name,
                digits,
                path,
                text,
            })
        } else {
            None
        }
    }
}
