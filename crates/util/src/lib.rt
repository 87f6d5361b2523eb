// Bit fields, number formats and the words of a slice. specs/ has their meanings, the readers of a section among them.
#![tactic(auto)]

pub mod bits;
pub mod cur;
pub mod fixed;
pub mod refusal;
pub mod view;
