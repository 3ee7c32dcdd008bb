// The commands on codes, by value: on the 20 bytes of a code's entry and a session. The functions of this crate ask what was tested before,
// and only this player's crates call them.
#![tactic(auto)]

pub mod codes;
