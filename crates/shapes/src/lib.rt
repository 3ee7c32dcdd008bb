// The table of forms: which P1, P2 and P3 each instruction takes, and whether it sends data.
#![tactic(auto)]

ghost use Rattle.std.specs.Prelude.{◌≡◌};
ghost use Rattle.card.specs.Forms.{form_of, sending, asking};
ghost use Rattle.shapes.specs.Means.{pairs, counts, meaning};

use card::Instruction;

// Which P1 and P2 are right.
#[derive(Clone, Copy, Debug, PartialEq, Eq)]
pub enum Pair {
    Both(u8, u8),
    Any,
    Mode,
    SeekMode,
    CodeNumber(u8, u8),
}

// Which P3 is right. A refusal of any other tells a length: the only one that is right, the second of `UpTo`, and else 0.
#[derive(Clone, Copy, Debug, PartialEq, Eq)]
pub enum Count {
    Exactly(u8),
    UpTo(u8, u8),
    NotZero,
    Free,
}

#[derive(Clone, Copy, Debug, PartialEq, Eq)]
pub struct Shape {
    pub pair: Pair,
    pub count: Count,
    pub sends: bool,
}

// A command that sends P3 data bytes, and one that sends none: the table's two words, as in the definition.
fn sending(pair: Pair, count: Count) -> Option<Shape>
    ensures { meaning result ≡ sending (pairs pair) (counts count) }
{
    Some(Shape {
        pair,
        count,
        sends: true,
    })
}

fn asking(pair: Pair, count: Count) -> Option<Shape>
    ensures { meaning result ≡ asking (pairs pair) (counts count) }
{
    Some(Shape {
        pair,
        count,
        sends: false,
    })
}

// The shape of a command that the card knows.
pub fn shape_of(i: Instruction) -> Option<Shape>
    ensures { form_of i ≡ meaning result }
{
    match i {
        Instruction::Select => sending(Pair::Both(0, 0), Count::Exactly(2)),
        Instruction::Status => asking(Pair::Both(0, 0), Count::UpTo(22, 22)),
        Instruction::ReadBinary => asking(Pair::Any, Count::Free),
        Instruction::UpdateBinary => sending(Pair::Any, Count::NotZero),
        Instruction::ReadRecord => asking(Pair::Mode, Count::Free),
        Instruction::UpdateRecord => sending(Pair::Mode, Count::NotZero),
        Instruction::Seek => sending(Pair::SeekMode, Count::UpTo(16, 0)),
        Instruction::Increase => sending(Pair::Both(0, 0), Count::Exactly(3)),
        Instruction::Verify => sending(Pair::CodeNumber(1, 2), Count::Exactly(8)),
        Instruction::Change => sending(Pair::CodeNumber(1, 2), Count::Exactly(16)),
        Instruction::Disable | Instruction::Enable => sending(Pair::Both(0, 1), Count::Exactly(8)),
        Instruction::Unblock => sending(Pair::CodeNumber(0, 2), Count::Exactly(16)),
        Instruction::Invalidate | Instruction::Rehabilitate | Instruction::Sleep => {
            asking(Pair::Both(0, 0), Count::Exactly(0))
        }
        Instruction::GetResponse => asking(Pair::Both(0, 0), Count::Free),
        Instruction::Unknown => None,
    }
}
