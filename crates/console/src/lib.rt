// The playing program: reads an image and commands from standard input, and writes one line a command. What a command answers is all in
// `player`; here is only reading and printing.
#![tactic(auto)]

mod line;

ghost use Rattle.std.specs.Prelude.{◌≤◌, ◌≡◌, true, length, IfSome, IfNone};
ghost use Rattle.acts.specs.Ready.{Ready};

use card::Session;
use streams::{input, short_input};

// Reads command k, plays it, and writes its line; the session after it, and nothing where the input ends before it. An image and a
// session that are known to be tested are not tested again.
fn play_one(
    known: bool,
    image: &mut [u8],
    session: Session,
    k: usize,
    space: &mut [u8],
    room: &mut [u8],
) -> Option<Session>
    requires in_bounds { 65536 ≤ length space.old }
    requires ready { known ≡ true → Ready image.old session }
    ensures came { IfSome result (λ after. known ≡ true → Ready image.new after) }
    ensures ended { IfNone result (image.new ≡ image.old) }
{
    let command = input::read_counted(space)?;
    let played = runs::play_on(known, image, session, command, room);
    line::report(k, played.answer, &room[..played.count]);
    Some(played.session)
}

// Plays n commands on an image from a reset; nothing where the input ends before the last of them.
fn play_all(image: &mut [u8], n: usize) -> Option<()> {
    let mut session = runs::reset();
    let known = runs::tested(image, session);
    let mut space = [0u8; 65536];
    let mut room = [0u8; 258];
    for k in 1..=n {
        session = play_one(known, image, session, k, &mut space, &mut room)?;
    }
    Some(())
}

// Reads the number of commands and plays them; nothing where the input ends before all of them.
fn play_input(image: &mut [u8]) -> Option<()> {
    let n = input::read_count()?;
    play_all(image, n)
}

// Plays the commands on the image that came. Where it is asked for, the image afterwards is told on one more line.
fn play_on(image: &mut [u8], told: bool) {
    if play_input(image).is_none() {
        short_input();
    }
    if told {
        line::tell_image(image);
    }
}

// Plays all of standard input. A flag and no closure over the image: what it chooses is one line more, for two programs. Of an image that is cut nothing is told.
pub fn run(told: bool) {
    let mut space = [0u8; 65536];
    let Some(image) = input::read_counted(&mut space) else {
        short_input();
        if told {
            line::tell_image(b"");
        }
        return;
    };
    play_on(image, told);
}
