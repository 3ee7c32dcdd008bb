// SELECT, STATUS and GET RESPONSE, by value: on what was found and a session. The functions of this crate ask what was tested before, and
// only this player's crates call them.
#![tactic(auto)]

pub mod select;
