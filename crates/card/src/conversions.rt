// The numbers of the interface: the host's answers, the status words of refusals, and the codes of instructions.
ghost use Rattle.std.specs.Prelude.{◌≡◌};
ghost use Rattle.card.specs.Answers.{number};
ghost use Rattle.card.specs.Forms.{instruction_of};
ghost use Rattle.card.specs.Refused.{word_of};

use crate::{Answer, Instruction, Refused};

impl From<Answer> for u8 {
    ghost from_gives = { λ a n. n ≡ number a };

    fn from(a: Answer) -> u8 {
        match a {
            Answer::Played => 0,
            Answer::NotAnImage => 1,
            Answer::DoesNotFit => 2,
            Answer::RoomTooSmall => 3,
            Answer::WrongLength => 4,
        }
    }
}

impl From<Refused> for u16 {
    ghost from_gives = { λ r w. w ≡ word_of r };

    fn from(r: Refused) -> u16 {
        match r {
            Refused::NoFile => 0x9400,
            Refused::OutOfRange => 0x9402,
            Refused::NotFound => 0x9404,
            Refused::Unsuited => 0x9408,
            Refused::NotInitialised => 0x9802,
            Refused::NotAllowed => 0x9804,
            Refused::Contradicted => 0x9808,
            Refused::Invalidated => 0x9810,
            Refused::Blocked => 0x9840,
            Refused::Overflow => 0x9850,
            Refused::Length(n) => 0x6700 + u16::from(n),
            Refused::Parameters => 0x6b00,
            Refused::Instruction => 0x6d00,
            Refused::NothingWaits => 0x6f00,
        }
    }
}

impl From<u8> for Instruction {
    ghost from_gives = { λ n i. i ≡ instruction_of n };

    #[tactic(auto, unfolding(crate::specs::Forms::instruction_of))]
    fn from(n: u8) -> Instruction {
        match n {
            0xa4 => Instruction::Select,
            0xf2 => Instruction::Status,
            0xb0 => Instruction::ReadBinary,
            0xd6 => Instruction::UpdateBinary,
            0xb2 => Instruction::ReadRecord,
            0xdc => Instruction::UpdateRecord,
            0xa2 => Instruction::Seek,
            0x32 => Instruction::Increase,
            0x20 => Instruction::Verify,
            0x24 => Instruction::Change,
            0x26 => Instruction::Disable,
            0x28 => Instruction::Enable,
            0x2c => Instruction::Unblock,
            0x04 => Instruction::Invalidate,
            0x44 => Instruction::Rehabilitate,
            0xfa => Instruction::Sleep,
            0xc0 => Instruction::GetResponse,
            _ => Instruction::Unknown,
        }
    }
}
