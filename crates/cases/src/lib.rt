// A case of the bench: a kind, the bytes of a file and the bytes of a value, to decode or to encode.
// What a case shows is the definition, in specs/. `cases_decode` and `cases_encode` have the two operations.
#![tactic(auto)]

pub mod kinds;
pub mod operations;
pub mod values;
