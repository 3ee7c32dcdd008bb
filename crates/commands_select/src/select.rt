// SELECT, STATUS and GET RESPONSE, by what was found and the bytes that tell of it.
ghost use Rattle.std.specs.Prelude.{◌≡◌, List, [], ◌++◌, ℕ, ◌+◌, ◌-◌, ◌≤◌, length, replicate};
ghost use Rattle.card.specs.Answers.{reply};
ghost use Rattle.card.specs.Select.{directory_response, tell_status, get_response};
ghost use Rattle.card.specs.Sessions.{waits, enters};
ghost use Rattle.commands.specs.Gives.{brief, Gives};

use card::{Refused, Session};
use commands::answers::{Reply, refusal, silent};
use parts::{lay, low};
use sessions::{dropped, enters, waits_padded};

// What waits is told, as many bytes as are asked; 67 leaves it. Only this player's crates call it.
pub fn get_response(s: Session, n: usize, room: &mut [u8]) -> Reply
    requires { (s.count ≤ 22) × (22 ≤ length room.old) }
    ensures { Gives (get_response s n) result room.old room.new }
{
    if s.count == 0 {
        return refusal(s, u16::from(Refused::NothingWaits));
    }
    if (n == 0) | (s.count < n) {
        return silent(s, u16::from(Refused::Length(s.count as u8)));
    }
    lay(&s.waiting, 0, n, room);
    Reply {
        session: dropped(s),
        word: 0x9000,
        count: n,
    }
}

// The first bytes on the current directory, which stand after four zeros. Only this player's crates call it.
pub fn tell_status(told: [u8; 26], s: Session, n: usize, room: &mut [u8]) -> Reply
    requires { (n ≤ 22) × (22 ≤ length room.old) }
    ensures { (h : List ℕ) → told ≡ replicate 4 0 ++ directory_response h s.directory
        → Gives (tell_status h s n) result room.old room.new }
{
    lay(&told, 4, n, room);
    Reply {
        session: dropped(s),
        word: 0x9000,
        count: n,
    }
}

// What SELECT found is entered, and the first n of these 22 bytes on it wait; the others are zeros. Only this player's crates call it.
pub fn selected(
    d: usize,
    c: Option<usize>,
    p: Option<usize>,
    told: &[u8],
    n: usize,
    s: Session,
) -> Reply
    requires { (length told.now ≡ 22) × (n ≤ 22) }
    ensures { (l : List ℕ) → length l ≡ n → told.now ≡ l ++ replicate (22 - n) 0
        → result ≡ brief (reply [] (0x9f00 + n) (waits l (enters d c p s))) }
{
    silent(
        waits_padded(told, n, enters(d, c, p, s)),
        0x9f00 + low(n as u8),
    )
}
