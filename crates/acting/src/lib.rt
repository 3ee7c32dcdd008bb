// What a command of the right form does.
#![tactic(auto)]

ghost use Rattle.std.specs.Prelude.{◌≤◌, length};
ghost use Rattle.acts.specs.Leaves.{Leaves};
ghost use Rattle.acts.specs.Ready.{Ready};
ghost use Rattle.card.specs.Layout.{head};
ghost use Rattle.card.specs.Play.{act, opened};
ghost use Rattle.acting.specs.Right.{Right};

use acts_codes::{change, disable, enable, unblock, verify};
use acts_marks::{invalidate, rehabilitate};
use acts_reading::{read_binary, read_record, seek_record};
use acts_select::{select, status};
use acts_writing::{increase_by, update_binary, update_record};
use card::{Instruction, Refused, Session};
use commands::answers::{Reply, refusal, silent};
use commands_select::select::get_response;
use forms::wanted;
use sessions::dropped;
use shelf::read::word_at;

// Only this player's crates call it, after the tests of the image, the session and the command.
pub fn act(
    image: &mut [u8],
    s: Session,
    i: Instruction,
    p: usize,
    q: usize,
    n: usize,
    body: &[u8],
    room: &mut [u8],
) -> Reply
    requires ready { Ready image.old s }
    requires right { Right i p q n body.now }
    requires in_bounds { 256 ≤ length room.old }
    ensures { Leaves (act i (head image.old) (opened image.old s.current) s p q n body.now)
        image.old s result image.new room.old room.new }
{
    match i {
        Instruction::Select => select(image, s, word_at(body, 0)),
        Instruction::Status => status(image, s, n, room),
        Instruction::ReadBinary => read_binary(image, s, p * 256 + q, wanted(n), room),
        Instruction::UpdateBinary => update_binary(image, s, p * 256 + q, body),
        Instruction::ReadRecord => read_record(image, s, p, q, n, room),
        Instruction::UpdateRecord => update_record(image, s, p, q, body),
        Instruction::Seek => seek_record(image, s, q, body),
        Instruction::Increase => increase_by(image, s, body),
        Instruction::Verify => verify(image, s, q - 1, body),
        Instruction::Change => change(image, s, q - 1, body),
        Instruction::Disable => disable(image, s, body),
        Instruction::Enable => enable(image, s, body),
        Instruction::Unblock => unblock(image, s, q / 2, body),
        Instruction::Invalidate => invalidate(image, s),
        Instruction::Rehabilitate => rehabilitate(image, s),
        Instruction::Sleep => silent(dropped(s), 0x9000),
        Instruction::GetResponse => get_response(s, n, room),
        Instruction::Unknown => refusal(s, u16::from(Refused::Instruction)),
    }
}
