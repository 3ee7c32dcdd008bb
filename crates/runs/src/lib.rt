// Runs of commands on one image. It is tested once: an image stays an image and a session goes on fitting it, as the demands prove, so
// each further command needs no test.
#![tactic(auto)]

ghost use Rattle.std.specs.Prelude.{◌≡◌, true, ◌&&◌, length, ◌<◌};
ghost use Rattle.acts.specs.Ready.{Ready};
ghost use Rattle.card.specs.Layout.{head};
ghost use Rattle.card.specs.Play.{play};
ghost use Rattle.card.specs.Sessions.{reset, fits};
ghost use Rattle.card.specs.Shelf.{is_image};
ghost use Rattle.player.specs.Ends.{Ends};

use card::Session;
use player::Played;
use shelf_check::examine;

// Master file, no EF, undefined, no marks, nothing waiting.
pub fn reset() -> Session
    ensures { result ≡ reset }
{
    Session {
        directory: 0,
        current: None,
        pointer: None,
        chv1: false,
        chv2: false,
        waiting: [0; 22],
        count: 0,
    }
}

// Whether these bytes are an image that the session fits: exactly then the commands that follow need no test.
pub fn tested(image: &[u8], session: Session) -> bool
    ensures value { result ≡ (is_image image.now && fits (head image.now) session) }
    ensures ready { result ≡ true → Ready image.now session }
{
    examine(image, session).is_ok()
}

// Plays a command as `play` does; where image and session are known to be tested, it does not test them again, and they are so again
// afterwards. Only this project's programs call it. `known` is a flag and no type: a type for what was tested would have to hold the image,
// which is lent anew for each command.
pub fn play_on(
    known: bool,
    image: &mut [u8],
    session: Session,
    command: &[u8],
    room: &mut [u8],
) -> Played
    requires { known ≡ true → Ready image.old session }
    ensures ends { Ends (play image.old session command.now (length room.old))
        result image.new room.old room.new }
    ensures ready { known ≡ true → Ready image.new result.session }
{
    if known {
        return player::play_ready(image, session, command, room);
    }
    player::play(image, session, command, room)
}
