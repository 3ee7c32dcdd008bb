// Halves of bytes, fields that hold a text and filler, and bytes with their count. What they mean is the definition, in specs/.
#![tactic(auto)]

pub mod bytes;
pub mod halves;
pub mod text;
