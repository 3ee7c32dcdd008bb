// INCREASE, by value: on a file's entry, its bytes and a session. It is the definition's function of its name. The functions of this crate
// ask what was tested before, and only this player's crates call them.
#![tactic(auto)]

ghost use Rattle.std.specs.Prelude.{◌≡◌, ◌++◌, ◌+◌, ◌≤◌, ◌<◌, true, length, replicate, IfOk};
ghost use Rattle.card.specs.Answers.{first};
ghost use Rattle.card.specs.Layout.{counter};
ghost use Rattle.card.specs.Refused.{word_in};
ghost use Rattle.card.specs.Increase.{amount, amount_bytes, increase_by};
ghost use Rattle.commands.specs.Gives.{Writes};
ghost use Rattle.commands_records.specs.Stands.{Stands};
ghost use Rattle.commands_increase.specs.Counts.{Counts, sum, refusals};

use access::shared;
use card::{Act, Entry, Refused, Rights, Session};
use commands::answers::{refusal, silent};
use commands_records::{Written, push, record_at};
use sessions::points;

// Three bytes, high byte first, as a number and back.
fn amount(l: &[u8], at: usize) -> u32
    requires { at + 3 ≤ length l.now }
    ensures { (result ≡ amount l.now at) × (result < 16777216) }
{
    u32::from_be_bytes([0, l[at], l[at + 1], l[at + 2]])
}

fn amount_bytes(n: u32) -> [u8; 3]
    requires { n < 16777216 }
    ensures { result ≡ amount_bytes n }
{
    let [_, high, middle, low] = n.to_be_bytes();
    [high, middle, low]
}

// A sum's three bytes, the three that were added, and zeros after them: as many bytes as a session has for those that wait. Written out,
// since copies into an array of zeros made INCREASE take 1.2 times as long as before.
fn told_sum(n: u32, added: &[u8]) -> [u8; 22]
    requires { (n < 16777216) × (length added.now ≡ 3) }
    ensures { result ≡ amount_bytes n ++ added.now ++ replicate 16 0 }
{
    let [high, middle, low] = amount_bytes(n);
    [
        high, middle, low, added[0], added[1], added[2], 0, 0, 0, 0, 0, 0, 0, 0, 0, 0, 0, 0, 0, 0,
        0, 0,
    ]
}

// The first refusal of INCREASE, and else the sum that it writes.
#[tactic(auto, using(access::proofs::Refusals::ordered), unfolding(card::specs::Answers::first))]
fn summed(r: Rights, e: Entry, b: &[u8], p: Option<usize>, added: &[u8]) -> Result<u32, Refused>
    requires stands { Stands e b.now p }
    requires counts { Counts e added.now }
    ensures refused { word_in result ≡ first (refusals r e b.now added.now) }
    ensures sum { IfOk result (λ x. (x ≡ sum e b.now added.now) × (x ≤ 0xffffff) × (counter e ≡ true)) }
{
    shared(r, e, Act::Increase, e.increase == 0x40)?;
    let sum = amount(b, record_at(e, 1)) + amount(added, 0);
    if 0xffffff < sum {
        return Err(Refused::Overflow);
    }
    Ok(sum)
}

// INCREASE: the record and what was added wait. Only this player's crates call it.
#[tactic(auto, unfolding(card::specs::Increase::increase_by, card::specs::Answers::unless, commands::specs::Gives::brief))]
pub fn increase_by(r: Rights, e: Entry, b: &mut [u8], s: Session, added: &[u8]) -> Written
    requires stands { Stands e b.old s.pointer }
    requires counts { Counts e added.now }
    ensures { Writes (increase_by r e b.old s added.now) result.reply b.new result.top }
{
    let sum = match summed(r, e, b, s.pointer, added) {
        Ok(sum) => sum,
        Err(refused) => {
            return Written {
                reply: refusal(s, u16::from(refused)),
                top: e.top,
            };
        }
    };
    let top = push(e, b, &amount_bytes(sum));
    let session = Session {
        waiting: told_sum(sum, added),
        count: 6,
        ..points(Some(1), s)
    };
    Written {
        reply: silent(session, 0x9f06),
        top,
    }
}
