//! Reading, writing and measuring the records of a descriptor set: `Proto` has a call for each.
#![tactic(auto)]

mod body;
mod encoding;
pub mod examples;
mod field_writing;
mod fields;
mod proto;
mod shared;
mod values;
mod writing;

pub use proto::Proto;
pub use shared::encode_files;
