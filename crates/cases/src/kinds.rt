// The kinds of files, by their numbers.
ghost use Rattle.std.specs.Prelude.{◌≡◌};
ghost use Rattle.cases.specs.Kinds.{kind_of};

#[derive(Clone, Copy, Debug, PartialEq, Eq)]
pub enum Kind {
    Iccid,
    Imsi,
    Network,
    Services,
    Spn,
    Admin,
    Unknown,
}

impl From<u8> for Kind {
    ghost from_gives = { λ b k. k ≡ kind_of b };

    #[tactic(auto, unfolding(crate::specs::Choice::choose))]
    fn from(b: u8) -> Kind {
        match b {
            1 => Kind::Iccid,
            2 => Kind::Imsi,
            3 => Kind::Network,
            4 => Kind::Services,
            5 => Kind::Spn,
            6 => Kind::Admin,
            _ => Kind::Unknown,
        }
    }
}
