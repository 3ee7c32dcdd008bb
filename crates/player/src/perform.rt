// One command on an image that was tested, with room for any response. That there is room, and that the command has its five bytes, stands in
// each contract and in no type: both slices are the host's, and the definition reads them as they are.
ghost use Rattle.std.specs.Prelude.{◌≡◌, ◌+◌, ◌≤◌, length, drop};
ghost use Rattle.acts.specs.Ready.{Ready};
ghost use Rattle.card.specs.Bytes.{byte};
ghost use Rattle.card.specs.Layout.{head};
ghost use Rattle.card.specs.Play.{act, opened, done, perform_as, perform};
ghost use Rattle.player.specs.Ends.{Tells, Ends};
ghost use Rattle.acting.specs.Right.{Right};

use crate::Played;
use acting::act;
use card::{Answer, Instruction, Session};
use commands::answers::{Reply, refusal, silent};
use forms::{formed, sent};

// A host answer that leaves everything.
pub fn decline(a: Answer, s: Session) -> Played
    ensures { result ≡ record { answer = a; count = 0; session = s } }
{
    Played {
        answer: a,
        count: 0,
        session: s,
    }
}

// The status word goes after the data.
fn tell(t: Reply, room: &mut [u8]) -> Played
    requires { t.count + 2 ≤ length room.old }
    ensures { Tells t result room.old room.new }
{
    let [high, low] = t.word.to_be_bytes();
    room[t.count] = high;
    room[t.count + 1] = low;
    Played {
        answer: Answer::Played,
        count: t.count + 2,
        session: t.session,
    }
}

// A command of the right form: its data lie in the room before the word is told.
fn carry_out(
    image: &mut [u8],
    s: Session,
    i: Instruction,
    command: &[u8],
    room: &mut [u8],
) -> Played
    requires ready { Ready image.old s }
    requires in_bounds { (258 ≤ length room.old) × (5 ≤ length command.now) }
    requires right { Right i (byte command.now 2) (byte command.now 3) (byte command.now 4) (drop 5 command.now) }
    ensures { Ends (done image.old s.current (act i (head image.old) (opened image.old s.current) s
        (byte command.now 2) (byte command.now 3) (byte command.now 4) (drop 5 command.now)))
        result image.new room.old room.new }
{
    let p = usize::from(command[2]);
    let q = usize::from(command[3]);
    let n = usize::from(command[4]);
    let t = act(image, s, i, p, q, n, &command[5..], &mut room[..256]);
    tell(t, room)
}

// Class, form, data bytes, and then the command itself.
fn perform_as(
    image: &mut [u8],
    s: Session,
    i: Instruction,
    command: &[u8],
    room: &mut [u8],
) -> Played
    requires ready { Ready image.old s }
    requires in_bounds { (258 ≤ length room.old) × (5 ≤ length command.now) }
    ensures { Ends (perform_as i image.old s command.now) result image.new room.old room.new }
{
    if command[0] != 0xa0 {
        return tell(silent(s, 0x6e00), room);
    }
    if let Err(refused) = formed(i, command[2], command[3], command[4]) {
        return tell(refusal(s, u16::from(refused)), room);
    }
    if command.len() - 5 != sent(i, command[4]) {
        return decline(Answer::WrongLength, s);
    }
    carry_out(image, s, i, command, room)
}

// A command on an image and a session that were tested, in room for any response. Only this player's crates call it.
pub fn perform(image: &mut [u8], s: Session, command: &[u8], room: &mut [u8]) -> Played
    requires ready { Ready image.old s }
    requires in_bounds { (258 ≤ length room.old) × (5 ≤ length command.now) }
    ensures { Ends (perform image.old s command.now) result image.new room.old room.new }
{
    perform_as(image, s, Instruction::from(command[1]), command, room)
}
