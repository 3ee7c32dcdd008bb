// INVALIDATE and REHABILITATE, by value: on a file's entry and a session. Each is the definition's function of its name. Only this player's
// crates call them.
#![tactic(auto)]

ghost use Rattle.std.specs.Prelude.{◌≡◌, ℕ, false};
ghost use Rattle.card.specs.Access.{barred};
ghost use Rattle.card.specs.Marks.{mark, invalidate, rehabilitate};
ghost use Rattle.commands.specs.Gives.{Marks};

use access::shared;
use card::{Act, Entry, Rights, Session};
use commands::answers::{Reply, refusal, silent};
use sessions::dropped;

// A reply, and the file's status afterwards.
#[derive(Clone, Copy)]
pub struct Marked {
    pub reply: Reply,
    pub status: u8,
}

// An act on the file's mark: where nothing refuses, its status becomes another one, which counts only where the mark does not stand in the way.
#[tactic(auto, unfolding(card::specs::Answers::unless, commands::specs::Gives::brief))]
fn mark(r: Rights, e: Entry, s: Session, a: Act, new: u8) -> Marked
    ensures { (n : ℕ) → (barred e a ≡ false → new ≡ n) → Marks (mark r e s a n) result.reply result.status }
{
    if let Err(refused) = shared(r, e, a, true) {
        return Marked {
            reply: refusal(s, u16::from(refused)),
            status: e.status,
        };
    }
    Marked {
        reply: silent(dropped(s), 0x9000),
        status: new,
    }
}

// Status b1 becomes 0.
pub fn invalidate(r: Rights, e: Entry, s: Session) -> Marked
    ensures { Marks (invalidate r e s) result.reply result.status }
{
    mark(r, e, s, Act::Invalidate, e.status & 0xfe)
}

// Status b1 becomes 1.
pub fn rehabilitate(r: Rights, e: Entry, s: Session) -> Marked
    ensures { Marks (rehabilitate r e s) result.reply result.status }
{
    mark(r, e, s, Act::Rehabilitate, e.status | 1)
}
