// READ RECORD and UPDATE RECORD, by value: on a file's entry, its bytes and a session. Each is the definition's function of its name. The
// functions of this crate ask what was tested before, and only this player's crates call them. `Stands` is in the contracts and in no type:
// a file's bytes are lent to be read or to be written, which would take two types with the same fact.
#![tactic(auto)]

ghost use Rattle.std.specs.Prelude.{◌≡◌, ◌+◌, ◌-◌, ◌%◌, ◌≤◌, ◌<◌, length, unwrap_or, IfOk};
ghost use Rattle.card.specs.Answers.{first};
ghost use Rattle.card.specs.Refused.{word_in};
ghost use Rattle.card.specs.Layout.{records};
ghost use Rattle.card.specs.Records.{next, previous, absolute, chosen, moved, record_at, of_record, read_record, updatable, update_record};
ghost use Rattle.card.specs.Bytes.{splice};
ghost use Rattle.commands.specs.Gives.{Gives, Writes};
ghost use Rattle.commands_records.specs.Stands.{Recorded, Stands, Fitting};

use access::shared;
use card::{Act, Entry, Refused, Rights, Session};
use commands::answers::{Reply, refusal, silent};
use entries::records;
use parts::{lay, put, wide};
use sessions::{dropped, points};

// A reply, and the file's top afterwards.
#[derive(Clone, Copy)]
pub struct Written {
    pub reply: Reply,
    pub top: u8,
}

// The record after a pointer; a cyclic file goes round.
fn next(e: Entry, p: Option<usize>) -> Option<usize>
    ensures { unwrap_or result 0 ≡ next e p }
{
    match p {
        None => Some(1),
        Some(k) if k < records(e) => Some(k + 1),
        Some(_) => (e.structure == 3).then_some(1),
    }
}

fn previous(e: Entry, p: Option<usize>) -> Option<usize>
    ensures { unwrap_or result 0 ≡ previous e p }
{
    match p {
        Some(k) if 1 < k => Some(k - 1),
        Some(_) if e.structure != 3 => None,
        _ => Some(records(e)),
    }
}

// The record with a number, and the current one where the number is 0.
fn absolute(e: Entry, n: usize, p: Option<usize>) -> Option<usize>
    ensures { unwrap_or result 0 ≡ absolute e n p }
{
    if n == 0 {
        return p;
    }
    (n <= records(e)).then_some(n)
}

// The record that a mode chooses. The mode is P2 as it was sent and as the definition takes it: a command's form lets only 02 to 04 come here.
#[tactic(auto, unfolding(card::specs::Records::chosen))]
fn chosen(e: Entry, n: usize, mode: usize, p: Option<usize>) -> Option<usize>
    ensures { unwrap_or result 0 ≡ chosen e n mode p }
{
    match mode {
        2 => next(e, p),
        3 => previous(e, p),
        _ => absolute(e, n, p),
    }
}

// Absolute and current leave the pointer.
fn moved(mode: usize, k: usize, s: Session) -> Session
    ensures { result ≡ moved mode k s }
{
    if mode == 4 { s } else { points(Some(k), s) }
}

// Where record k starts in the file's bytes: a place past the last is one after the first. Only this player's crates call it.
#[tactic(auto, using(crate::proofs::Reaching::places))]
pub fn record_at(e: Entry, k: usize) -> usize
    requires recorded { Recorded e }
    requires k_nonzero { (0 < k) × (k ≤ records e + 1) }
    ensures { (result ≡ record_at e k) × (result + e.width ≤ e.size) }
{
    let n = records(e);
    let place = wide(e.top) + k - 1;
    let round = if place < n { place } else { place - n };
    round * wide(e.width)
}

// The first refusal of a record with n bytes, and else the record's number: it counts from 1.
#[tactic(auto, using(access::proofs::Refusals::ordered), unfolding(card::specs::Records::of_record, card::specs::Answers::first))]
fn of_record(
    r: Rights,
    e: Entry,
    a: Act,
    suits: bool,
    k: Option<usize>,
    n: usize,
) -> Result<usize, Refused>
    ensures refused { word_in result ≡ first (of_record r e a suits (unwrap_or k 0) n) }
    ensures fitting { IfOk result (λ x. (x ≡ unwrap_or k 0) × Fitting e suits x n) }
{
    shared(r, e, a, suits)?;
    if n != wide(e.width) {
        return Err(Refused::Length(e.width));
    }
    k.filter(|&k| k != 0).ok_or(Refused::OutOfRange)
}

// READ RECORD. Only this player's crates call it.
#[tactic(auto, using(crate::proofs::Reaching::chosen_within), unfolding(card::specs::Records::read_record, card::specs::Answers::unless, commands::specs::Gives::brief))]
pub fn read_record(
    r: Rights,
    e: Entry,
    b: &[u8],
    s: Session,
    number: usize,
    mode: usize,
    n: usize,
    room: &mut [u8],
) -> Reply
    requires stands { Stands e b.now s.pointer }
    requires n_in_bounds { n ≤ length room.old }
    ensures { Gives (read_record r e b.now s number mode n) result room.old room.new }
{
    let k = chosen(e, number, mode, s.pointer);
    let k = match of_record(r, e, Act::Read, e.structure != 0, k, n) {
        Ok(k) => k,
        Err(refused) => return refusal(s, u16::from(refused)),
    };
    lay(b, record_at(e, k), n, room);
    Reply {
        session: moved(mode, k, dropped(s)),
        word: 0x9000,
        count: n,
    }
}

// A cyclic file takes only mode 03.
fn updatable(mode: usize, e: Entry) -> bool
    ensures { result ≡ updatable mode e }
{
    e.structure != 0 && (e.structure != 3 || mode == 3)
}

// A cyclic file's oldest record is overwritten and becomes record 1: the top afterwards. Only this player's crates call it.
pub fn push(e: Entry, b: &mut [u8], new: &[u8]) -> u8
    requires recorded { Recorded e }
    requires b_len { (length b.old ≡ e.size) × (length new.now ≡ e.width) }
    ensures { (b.new ≡ splice b.old (record_at e (records e)) e.width new.now)
        × (result ≡ (e.top + records e - 1) % records e) }
{
    let n = records(e);
    put(b, record_at(e, n), new);
    ((wide(e.top) + n - 1) % n) as u8
}

// UPDATE RECORD. Only this player's crates call it.
#[tactic(auto, using(crate::proofs::Reaching::chosen_within), unfolding(card::specs::Records::update_record, card::specs::Answers::unless, commands::specs::Gives::brief))]
pub fn update_record(
    r: Rights,
    e: Entry,
    b: &mut [u8],
    s: Session,
    number: usize,
    mode: usize,
    new: &[u8],
) -> Written
    requires { Stands e b.old s.pointer }
    ensures { Writes (update_record r e b.old s number mode new.now) result.reply b.new result.top }
{
    let k = chosen(e, number, mode, s.pointer);
    let k = match of_record(r, e, Act::Update, updatable(mode, e), k, new.len()) {
        Ok(k) => k,
        Err(refused) => {
            return Written {
                reply: refusal(s, u16::from(refused)),
                top: e.top,
            };
        }
    };
    if e.structure == 3 {
        let top = push(e, b, new);
        return Written {
            reply: silent(points(Some(1), dropped(s)), 0x9000),
            top,
        };
    }
    put(b, record_at(e, k), new);
    Written {
        reply: silent(moved(mode, k, dropped(s)), 0x9000),
        top: e.top,
    }
}
