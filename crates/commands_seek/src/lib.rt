// SEEK, by value: on a file's entry, its bytes and a session. It is the definition's function of its name. The functions of this crate ask
// what was tested before, and only this player's crates call them.
#![tactic(auto)]

ghost use Rattle.std.specs.Prelude.{◌≡◌, ℕ, ◌+◌, ◌*◌, ◌/◌, ◌%◌, ◌≤◌, ◌<◌, length, Some, unwrap_or, IfOk, IfSome};
ghost use Rattle.card.specs.Answers.{first};
ghost use Rattle.card.specs.Refused.{word_in};
ghost use Rattle.card.specs.Layout.{records};
ghost use Rattle.card.specs.Seek.{matches, sought, seek_record};
ghost use Rattle.commands_seek.specs.Along.{Ranges, found, refusals};
ghost use Rattle.commands.specs.Gives.{Says};
ghost use Rattle.commands_records.specs.Stands.{Stands};

use access::shared;
use card::{Act, Entry, Refused, Rights, Session};
use commands::answers::{Reply, refusal, silent};
use entries::records;
use sessions::{points, waits};

// Whether record k of m bytes starts with the pattern.
#[tactic(auto, using(crate::proofs::Seeking::comparing))]
fn starts(b: &[u8], m: usize, pattern: &[u8], k: usize) -> bool
    requires within { (0 < k) × (k * m ≤ length b.now) }
    requires narrow { length pattern.now ≤ m }
    ensures { result ≡ matches b.now m pattern.now k }
{
    let at = (k - 1) * m;
    for (j, byte) in pattern.iter().enumerate() {
        if b[at + j] != *byte {
            return false;
        }
    }
    true
}

// The first record that starts with the pattern, of so many from one on, up or down.
#[tactic(auto, using(crate::proofs::Seeking::searching))]
fn search(b: &[u8], m: usize, pattern: &[u8], up: bool, from: usize, turns: usize) -> Option<usize>
    requires { Ranges b.now m (length pattern.now) up from turns }
    ensures found { unwrap_or result 0 ≡ found b.now m pattern.now up from turns }
    ensures within { IfSome result (λ k. (0 < k) × (k < 256)) }
{
    for i in 0..turns {
        let k = if up { from + i } else { from - i };
        if starts(b, m, pattern, k) {
            return Some(k);
        }
    }
    None
}

// The record that a mode finds among n. The mode is the low half of P2, as the definition takes it.
#[tactic(auto, unfolding(card::specs::Seek::sought))]
fn sought(
    b: &[u8],
    m: usize,
    n: usize,
    pattern: &[u8],
    mode: usize,
    p: Option<usize>,
) -> Option<usize>
    requires whole { (n * m ≤ length b.now) × (n < 256) }
    requires narrow { length pattern.now ≤ m }
    requires pointed { (k : ℕ) → p ≡ Some k → k ≤ n }
    ensures found { unwrap_or result 0 ≡ sought b.now m n pattern.now mode p }
    ensures within { IfSome result (λ k. (0 < k) × (k < 256)) }
{
    match mode {
        0 => search(b, m, pattern, true, 1, n),
        1 => search(b, m, pattern, false, n, n),
        2 => {
            let from = p.unwrap_or(0) + 1;
            search(b, m, pattern, true, from, n + 1 - from)
        }
        _ => {
            let from = p.map_or(n, |k| k.saturating_sub(1));
            search(b, m, pattern, false, from, from)
        }
    }
}

// The first refusal of SEEK, and else the record that it finds.
#[tactic(auto, using(access::proofs::Refusals::ordered), unfolding(card::specs::Answers::first))]
fn reached(
    r: Rights,
    e: Entry,
    b: &[u8],
    mode: usize,
    p: Option<usize>,
    pattern: &[u8],
) -> Result<usize, Refused>
    requires { Stands e b.now p }
    ensures refused { word_in result ≡ first (refusals r e b.now mode p pattern.now) }
    ensures found { IfOk result (λ k. (k ≡ sought b.now e.width (records e) pattern.now (mode % 16) p) × (k < 256)) }
{
    shared(r, e, Act::Seek, e.structure == 1)?;
    let width = usize::from(e.width);
    if width < pattern.len() {
        return Err(Refused::Length(e.width));
    }
    sought(b, width, records(e), pattern, mode % 16, p).ok_or(Refused::NotFound)
}

// SEEK: as many bytes tell the record as the type says. Only this player's crates call it, after the test of the type.
#[tactic(auto, unfolding(card::specs::Seek::seek_record, card::specs::Answers::unless, commands::specs::Gives::brief))]
pub fn seek_record(r: Rights, e: Entry, b: &[u8], s: Session, mode: usize, pattern: &[u8]) -> Reply
    requires stands { Stands e b.now s.pointer }
    requires mode_bound { mode / 16 < 2 }
    ensures { Says (seek_record r e b.now s mode pattern.now) result }
{
    let k = match reached(r, e, b, mode, s.pointer, pattern) {
        Ok(k) => k,
        Err(refused) => return refusal(s, u16::from(refused)),
    };
    let n = mode / 16;
    let number = [k as u8];
    let word = if n == 0 { 0x9000 } else { 0x9f01 };
    silent(waits(&number[..n], points(Some(k), s)), word)
}
