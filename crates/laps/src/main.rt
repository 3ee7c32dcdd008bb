// Plays a list of commands on an image in laps, for the benchmark. Standard input: one byte (0: all tests at every command; else image and
// session are tested at the start of each lap), the number of laps, and the playing program's input. Image and session go on from lap to
// lap, and no line is written for a command; at the end one line tells two sums modulo 2^32: over all commands 7 times the host answer,
// 3 times the response count and the response's bytes; and over the image (i + 1) times byte i.
#![tactic(auto)]

mod list;
mod sums;

ghost use Rattle.std.specs.Prelude.{◌≡◌, ◌≤◌, true, length};
ghost use Rattle.acts.specs.Ready.{Ready};

use card::Session;
use streams::{input, print, short_input};

// The sum so far and the session.
#[derive(Clone, Copy)]
struct Lap {
    sum: u32,
    session: Session,
}

// Plays the whole list once.
fn play_list(known: bool, image: &mut [u8], lap: Lap, list: &[u8], room: &mut [u8]) -> Lap
    requires { known ≡ true → Ready image.old lap.session }
{
    let mut session = lap.session;
    let mut sum = lap.sum;
    let mut rest = list;
    while let Some((command, after)) = list::split_first(rest) {
        let played = runs::play_on(known, image, session, command, room);
        sum = sums::with_answer(sum, played.answer, &room[..played.count]);
        session = played.session;
        rest = after;
    }
    Lap { sum, session }
}

// Whether a lap's commands may rely on a test at its start.
fn start(once: bool, image: &[u8], session: Session) -> bool
    ensures { result ≡ true → Ready image.now session }
{
    once && runs::tested(image, session)
}

// All laps.
fn play_laps(once: bool, laps: usize, image: &mut [u8], list: &[u8]) -> u32 {
    let mut room = [0u8; 258];
    let session = runs::reset();
    let mut lap = Lap { sum: 0, session };
    for _ in 0..laps {
        let known = start(once, image, lap.session);
        lap = play_list(known, image, lap, list, &mut room);
    }
    lap.sum
}

// Reads the list into its space, plays the laps and tells both sums; nothing where the input ends before.
fn play_in(once: bool, laps: usize, image: &mut [u8], space: &mut [u8]) -> Option<()> {
    let n = input::read_count()?;
    let end = list::read_all(space, n)?;
    let answers = play_laps(once, laps, image, &space[..end]);
    let image = sums::of_image(image);
    print::<64, _>(format_args!("{answers} {image}\n"));
    Some(())
}

// Reads the image and goes on to the list.
fn play_image(once: bool, laps: usize, space: &mut [u8]) -> Option<()>
    requires { 65536 ≤ length space.old }
{
    let image = input::read_counted(space)?;
    let mut list = [0u8; 262144];
    play_in(once, laps, image, &mut list)
}

// Plays all of standard input.
fn play() -> Option<()> {
    let mut mode = [0u8; 1];
    // both are read before either is looked at: as much is taken of an input that ends at once and then goes on, as a terminal's
    let came = input::fill(&mut mode);
    let laps = input::read_count();
    came?;
    let laps = laps?;
    let mut space = [0u8; 65536];
    play_image(mode[0] != 0, laps, &mut space)
}

fn main() {
    if play().is_none() {
        short_input();
    }
}
