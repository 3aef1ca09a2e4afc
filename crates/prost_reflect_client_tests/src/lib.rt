//! What programs do with messages: functions of such programs, which the contracts of the library's public calls have to
//! carry, and tests of what is asked of messages and changed in them.
#![tactic(auto)]

#[cfg(test)]
mod fields;
#[cfg(test)]
mod programs;
