// The sections JNT0, SRT0 and PAT0, and their entries. specs/ has their meaning.
#![tactic(auto)]

pub mod container;
pub mod entry;
