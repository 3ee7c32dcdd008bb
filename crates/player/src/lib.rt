// One command on an image, a session and a room.
#![tactic(auto)]

mod perform;

ghost use Rattle.std.specs.Prelude.{length};
ghost use Rattle.acts.specs.Ready.{Ready};
ghost use Rattle.card.specs.Play.{play};
ghost use Rattle.player.specs.Ends.{Ends, played};

use card::{Answer, Session};
use perform::decline;
use shelf_check::examine;

// How a command ends: the host's answer, how many bytes of the room are the response, and the session afterwards. An answer beside a count
// and no `Result`: the definition's outcome has both for each of its five answers, and every caller tells both.
#[derive(Clone, Copy)]
pub struct Played {
    pub answer: Answer,
    pub count: usize,
    pub session: Session,
}

// The same, answer and count likewise, but for the session, which is stored where it was lent.
#[derive(Clone, Copy)]
pub struct Lent {
    pub answer: Answer,
    pub count: usize,
}

// Plays a command on an image and a session that were tested before. Only this player's crates call it.
pub fn play_ready(image: &mut [u8], session: Session, command: &[u8], room: &mut [u8]) -> Played
    requires { Ready image.old session }
    ensures { Ends (play image.old session command.now (length room.old))
        result image.new room.old room.new }
{
    if room.len() < 258 {
        return decline(Answer::RoomTooSmall, session);
    }
    if command.len() < 5 {
        return decline(Answer::WrongLength, session);
    }
    perform::perform(image, session, command, room)
}

// Plays a command, whatever bytes the image, the command and the room are, and whatever the session: the answer, the session, and each
// byte of the image and the room are the definition's.
pub fn play(image: &mut [u8], session: Session, command: &[u8], room: &mut [u8]) -> Played
    ensures { Ends (play image.old session command.now (length room.old))
        result image.new room.old room.new }
{
    match examine(image, session) {
        Ok(()) => play_ready(image, session, command, room),
        Err(answer) => decline(answer, session),
    }
}

// Plays a command as `play` does, on a session that is lent.
pub fn play_lent(image: &mut [u8], session: &mut Session, command: &[u8], room: &mut [u8]) -> Lent
    ensures { Ends (play image.old session.old command.now (length room.old))
        (played result session.new) image.new room.old room.new }
{
    let played = play(image, *session, command, room);
    *session = played.session;
    Lent {
        answer: played.answer,
        count: played.count,
    }
}
