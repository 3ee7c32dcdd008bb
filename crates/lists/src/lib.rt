// Lists of commands on one image, played by one call.
#![tactic(auto)]

ghost use Rattle.std.specs.Prelude.{◌≡◌, true, ◌≤◌, length, drop};
ghost use Rattle.acts.specs.Ready.{Ready};
ghost use Rattle.card.specs.Play.{play};
ghost use Rattle.lists.specs.Answers.{Told};
ghost use Rattle.lists.specs.Commands.{whole};
ghost use Rattle.lists.specs.Runs.{Runs};

use card::Session;
use entries::word;
use player::Played;

// How a list of commands ends: how many were played, how many bytes of the answers were written, and the session afterwards.
#[derive(Clone, Copy)]
pub struct Ran {
    pub played: usize,
    pub written: usize,
    pub session: Session,
}

// Whether the command whose count stands at a place is whole.
fn whole(commands: &[u8], at: usize) -> bool
    requires { at ≤ length commands.now }
    ensures { result ≡ whole (drop at commands.now) }
{
    let left = commands.len() - at;
    if left < 2 {
        return false;
    }
    2 + usize::from(word(commands, at)) <= left
}

// Plays a command and tells of it in 261 bytes: the response is laid after the first three, which are told then.
fn step(
    known: bool,
    image: &mut [u8],
    session: Session,
    command: &[u8],
    answer: &mut [u8],
) -> Played
    requires ready { known ≡ true → Ready image.old session }
    requires answer_len { length answer.old ≡ 261 }
    ensures told { Told (play image.old session command.now 258)
        result image.new answer.old answer.new }
    ensures stays_ready { known ≡ true → Ready image.new result.session }
{
    let played = runs::play_on(known, image, session, command, &mut answer[3..]);
    answer[0] = u8::from(played.answer);
    answer[1] = (played.count / 256) as u8;
    answer[2] = (played.count % 256) as u8;
    played
}

// Plays n commands that stand one after the other, each after its count in two bytes, high byte first, whatever the bytes and the session
// are. The image and the session are tested once. Of each command the answers tell the host's answer (one byte), the count of the response
// (two bytes, high byte first) and the response. It ends early where the next command is not whole, or where fewer than 261 bytes are left
// for its answer. Commands and answers are slices with a place beside them: they are lent by the host, and the promise is of what stands before and
// after the place.
pub fn run(image: &mut [u8], session: Session, commands: &[u8], n: usize, answers: &mut [u8]) -> Ran
    ensures { Runs image.old session commands.now n answers.old
        result image.new answers.new }
{
    let known = runs::tested(image, session);
    let mut ran = Ran {
        played: 0,
        written: 0,
        session,
    };
    let mut at = 0;
    for played in 0..n {
        let until = ran.written + 261;
        if !(whole(commands, at) & (until <= answers.len())) {
            return ran;
        }
        let from = at + 2;
        at = from + usize::from(word(commands, at));
        let done = step(
            known,
            image,
            ran.session,
            &commands[from..at],
            &mut answers[ran.written..until],
        );
        let told = 3 + done.count;
        ran = Ran {
            played: played + 1,
            written: ran.written + told,
            session: done.session,
        };
    }
    ran
}
