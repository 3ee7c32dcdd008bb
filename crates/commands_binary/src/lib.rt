// READ BINARY and UPDATE BINARY, by value: on a file's entry, its bytes and a session. Each is the definition's function of its name. The
// functions of this crate ask what was tested before, and only this player's crates call them.
#![tactic(auto)]

ghost use Rattle.std.specs.Prelude.{◌≡◌, ◌+◌, ◌≤◌, length, OnOk};
ghost use Rattle.card.specs.Answers.{first};
ghost use Rattle.card.specs.Refused.{word_in};
ghost use Rattle.card.specs.Binary.{binary, read_binary, update_binary};
ghost use Rattle.commands.specs.Gives.{Gives, Writes};

use access::shared;
use card::{Act, Entry, Refused, Rights, Session};
use commands::answers::{Reply, refusal, silent};
use parts::{lay, put, wide_word};
use sessions::dropped;

// The first refusal of n bytes from a place on.
#[tactic(auto, using(access::proofs::Refusals::ordered), unfolding(card::specs::Binary::binary, card::specs::Answers::first))]
fn binary(r: Rights, e: Entry, a: Act, at: usize, n: usize) -> Result<(), Refused>
    ensures refused { word_in result ≡ first (binary r e a at n) }
    ensures within { OnOk result (at + n ≤ e.size) }
{
    shared(r, e, a, e.structure == 0)?;
    let size = wide_word(e.size);
    if size < n || size - n < at {
        return Err(Refused::OutOfRange);
    }
    Ok(())
}

// READ BINARY. Only this player's crates call it.
#[tactic(auto, using(card::proofs::Parts::length_part), unfolding(card::specs::Binary::read_binary, card::specs::Answers::unless, commands::specs::Gives::brief))]
pub fn read_binary(
    r: Rights,
    e: Entry,
    b: &[u8],
    s: Session,
    at: usize,
    n: usize,
    room: &mut [u8],
) -> Reply
    requires { (length b.now ≡ e.size) × (n ≤ length room.old) }
    ensures { Gives (read_binary r e b.now s at n) result room.old room.new }
{
    if let Err(refused) = binary(r, e, Act::Read, at, n) {
        return refusal(s, u16::from(refused));
    }
    lay(b, at, n, room);
    Reply {
        session: dropped(s),
        word: 0x9000,
        count: n,
    }
}

// UPDATE BINARY. Only this player's crates call it.
#[tactic(auto, unfolding(card::specs::Binary::update_binary, card::specs::Answers::unless, commands::specs::Gives::brief))]
pub fn update_binary(r: Rights, e: Entry, b: &mut [u8], s: Session, at: usize, new: &[u8]) -> Reply
    requires { length b.old ≡ e.size }
    ensures { Writes (update_binary r e b.old s at new.now) result b.new e.top }
{
    if let Err(refused) = binary(r, e, Act::Update, at, new.len()) {
        return refusal(s, u16::from(refused));
    }
    put(b, at, new);
    silent(dropped(s), 0x9000)
}
