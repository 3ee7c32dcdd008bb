// The test of a code, which the five commands on codes share, on the 20 bytes of its entry. The functions of this crate ask what was tested
// before, and only this player's crates call them.
#![tactic(auto)]

ghost use Rattle.std.specs.Prelude.{◌≡◌, ◌+◌, ◌≤◌, ◌<◌, length};
ghost use Rattle.card.specs.Bytes.{part, same};
ghost use Rattle.card.specs.Answers.{first};
ghost use Rattle.card.specs.Codes.{attempts_left, attempts_at, ready, renewed, tested};
ghost use Rattle.card.specs.Refused.{word_in, word_of};
ghost use Rattle.commands.specs.Gives.{Codes};
ghost use Rattle.code_tests.specs.Keys.{keyed, value_at, untestable, missed_word};

use card::{Code, Refused, Session};
use commands::answers::{Reply, refusal, silent};
use sessions::{dropped, presents};

// Which of an entry's two codes a command tests.
#[derive(Clone, Copy, Debug, PartialEq, Eq)]
pub enum Key {
    Chv,
    Unblocking,
}

impl Key {
    #[tactic(auto, unfolding(crate::specs::Keys::keyed))]
    fn ready(self, k: Code) -> bool
        ensures { result ≡ ready (keyed self) k }
    {
        let initialised = k.flags / 128 % 2 == 1;
        match self {
            Key::Chv => initialised,
            Key::Unblocking => initialised && k.flags / 64 % 2 == 1,
        }
    }

    // How many attempts are left, and where that stands in the entry.
    #[tactic(auto, unfolding(crate::specs::Keys::keyed))]
    fn attempts_left(self, k: Code) -> u8
        ensures { result ≡ attempts_left (keyed self) k }
    {
        match self {
            Key::Chv => k.attempts,
            Key::Unblocking => k.unblocks,
        }
    }

    #[tactic(auto, unfolding(crate::specs::Keys::keyed))]
    fn attempts_at(self) -> usize
        ensures { (result ≡ attempts_at (keyed self)) × (result < 20) }
    {
        match self {
            Key::Chv => 1,
            Key::Unblocking => 2,
        }
    }

    // Where the code itself stands in the entry.
    #[tactic(auto, unfolding(crate::specs::Keys::keyed))]
    fn value_at(self) -> usize
        ensures { (result ≡ value_at (keyed self)) × (result ≤ 12) }
    {
        match self {
            Key::Chv => 4,
            Key::Unblocking => 12,
        }
    }
}

// The first refusal of a test.
#[tactic(auto, unfolding(crate::specs::Keys::untestable, card::specs::Answers::first))]
fn testable(key: Key, k: Code, contradicts: bool) -> Result<(), Refused>
    ensures { word_in result ≡ first (untestable (keyed key) k contradicts) }
{
    if !key.ready(k) {
        return Err(Refused::NotInitialised);
    }
    if key.attempts_left(k) == 0 {
        return Err(Refused::Blocked);
    }
    if contradicts {
        return Err(Refused::Contradicted);
    }
    Ok(())
}

// Why a wrong code is refused, by the attempts that were left before it.
#[tactic(auto, unfolding(crate::specs::Keys::missed_word))]
fn missed(left: u8) -> Refused
    ensures { word_of result ≡ missed_word left }
{
    if left == 1 {
        return Refused::Blocked;
    }
    Refused::NotAllowed
}

// The eight bytes from a place on, where a code stands. Only this player's crates call it.
pub fn eight(l: &[u8], at: usize) -> [u8; 8]
    requires { at + 8 ≤ length l.now }
    ensures { result ≡ part l.now at 8 }
{
    let mut code = [0; 8];
    code.copy_from_slice(&l[at..at + 8]);
    code
}

// Whether the code at a place of the entry is the given one.
#[tactic(auto, using(card::proofs::Tests::compared))]
fn same_code(e: &[u8], at: usize, given: [u8; 8]) -> bool
    requires { at + 8 ≤ length e.now }
    ensures { result ≡ same (part e.now at 8) given }
{
    eight(e, at) == given
}

// What a right code makes of its entry, which gets all attempts.
#[derive(Clone, Copy, Debug, PartialEq, Eq)]
pub struct Renewal {
    pub flags: u8,
    pub unblocks: u8,
    pub code: [u8; 8],
}

fn renew(e: &mut [u8], to: Renewal)
    requires { length e.old ≡ 20 }
    ensures { e.new ≡ renewed e.old to.flags to.unblocks to.code }
{
    e[..4].copy_from_slice(&[to.flags, 3, to.unblocks, 0]);
    e[4..12].copy_from_slice(&to.code);
}

// A code is tested: right, it is presented and its entry is renewed; wrong, its counter falls by one. Only this player's crates call it.
#[tactic(auto, using(crate::proofs::Trials::some), unfolding(crate::specs::Keys::untestable, crate::specs::Keys::missed_word, card::specs::Codes::tested, card::specs::Answers::unless, commands::specs::Gives::brief))]
pub fn tested(
    e: &mut [u8],
    s: Session,
    c: usize,
    key: Key,
    contradicts: bool,
    given: [u8; 8],
    to: Renewal,
) -> Reply
    requires { length e.old ≡ 20 }
    ensures { Codes (tested e.old s c (keyed key) contradicts given
        (renewed e.old to.flags to.unblocks to.code)) result e.new }
{
    let k = entries::code(e, 0);
    if let Err(why) = testable(key, k, contradicts) {
        return refusal(s, u16::from(why));
    }
    if !same_code(e, key.value_at(), given) {
        let left = key.attempts_left(k);
        e[key.attempts_at()] = left - 1;
        return refusal(s, u16::from(missed(left)));
    }
    renew(e, to);
    silent(presents(c, dropped(s)), 0x9000)
}
