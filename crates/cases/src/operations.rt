// The operations, by their numbers.
ghost use Rattle.std.specs.Prelude.{◌≡◌};
ghost use Rattle.cases.specs.Operations.{operation_of};

#[derive(Clone, Copy, Debug, PartialEq, Eq)]
pub enum Operation {
    Decode,
    Encode,
    Unknown,
}

impl From<u8> for Operation {
    ghost from_gives = { λ b o. o ≡ operation_of b };

    #[tactic(auto, unfolding(crate::specs::Choice::choose))]
    fn from(b: u8) -> Operation {
        match b {
            0 => Operation::Decode,
            1 => Operation::Encode,
            _ => Operation::Unknown,
        }
    }
}
