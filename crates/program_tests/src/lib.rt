//! Tests of what the programs `protorelay` and `prototool` do, through the public calls of their commands.
#![tactic(auto)]

#[cfg(test)]
mod compare;
#[cfg(test)]
mod decoding;
#[cfg(test)]
mod print;
#[cfg(test)]
mod protorelay;
#[cfg(test)]
mod redact;
