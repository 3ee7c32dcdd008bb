// What the commands by value give: replies. Only this player's crates call these.
#![tactic(auto)]

pub mod answers;
