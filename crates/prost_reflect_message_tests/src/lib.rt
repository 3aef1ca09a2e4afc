//! Tests of values, of what fields take, of equality, and of messages that are read, written, merged and relayed, through the
//! public calls of `prost_reflect`.
#![tactic(auto)]

#[cfg(test)]
mod canonical;
#[cfg(test)]
mod contents;
#[cfg(test)]
mod defaults;
#[cfg(test)]
mod equality;
#[cfg(test)]
mod every;
#[cfg(test)]
mod forms;
#[cfg(test)]
mod kinds;
#[cfg(test)]
mod large;
#[cfg(test)]
mod lengths;
#[cfg(test)]
mod levels;
#[cfg(test)]
mod like;
#[cfg(test)]
mod merges;
#[cfg(test)]
mod paths;
#[cfg(test)]
mod refusals;
#[cfg(test)]
mod relay;
#[cfg(test)]
mod setting;
#[cfg(test)]
mod shown;
#[cfg(test)]
mod texts;
#[cfg(test)]
mod typed;
#[cfg(test)]
mod types;
#[cfg(test)]
mod validity;
#[cfg(test)]
mod values;
#[cfg(test)]
mod worked;
