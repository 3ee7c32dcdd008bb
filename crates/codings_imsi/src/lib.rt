// The subscriber's number: its digits read and written.
#![tactic(auto)]

ghost use Rattle.std.specs.Prelude.{◌≡◌, [], length};
ghost use Rattle.fields.specs.Halves.{halves};
ghost use Rattle.codings.specs.Answers.{told, decoded};
ghost use Rattle.codings.specs.Imsi.{mark, writable, decode, encode};
ghost use Rattle.codings.specs.ImsiByCount.{numbered};

use codings::Refused;
use fields::bytes::Bytes;
use fields::halves::{pack, unpack};
use fields::text::{closed, lead, place};

// The half before the first digit.
#[tactic(auto, unfolding(codings::specs::Imsi::mark))]
fn mark(count: usize) -> u8
    ensures { result ≡ mark count }
{
    if count % 2 == 1 { 9 } else { 1 }
}

// Whether a file of these halves holds a number, by the count of its digits.
fn numbered(s: &[u8], hs: &[u8; 18]) -> bool
    requires long { length s.now ≡ 9 }
    requires halves { hs.now ≡ halves s.now }
    ensures { result ≡ numbered s.now }
{
    let field = &hs[3..];
    let count = lead(field, 10);
    closed(field, 10, 15) && count > 0 && usize::from(s[0]) == count / 2 + 1 && hs[2] == mark(count)
}

// The digits of a file.
#[tactic(auto, unfolding(codings::specs::Answers::judge, codings::specs::ImsiByCount::decode, codings::specs::ImsiByCount::digits_in))]
pub fn decode(s: &[u8]) -> Result<Bytes<15>, Refused>
    ensures { decoded [] result ≡ decode s.now }
{
    if s.len() != 9 {
        return Err(Refused::Length);
    }
    let mut hs = [0u8; 18];
    unpack(s, &mut hs);
    if !numbered(s, &hs) {
        return Err(Refused::Value);
    }
    Ok(Bytes::text(&hs[3..], 10))
}

// Whether a file can hold them: 1 to 15 digits. Each kind has a test of this name, as in the definition.
#[tactic(auto, unfolding(codings::specs::Imsi::writable, fields::specs::Text::within))]
fn writable(digits: &[u8]) -> bool
    ensures { result ≡ writable digits.now }
{
    !digits.is_empty() && digits.len() <= 15 && lead(digits, 10) == digits.len()
}

// The file of these digits, in the lent room.
#[tactic(auto, using(crate::proofs::Laws::first_byte, crate::proofs::Laws::joins), unfolding(codings::specs::Answers::judge, codings::specs::Imsi::encode, codings::specs::Imsi::writable, fields::specs::Text::placed))]
pub fn encode(digits: &[u8], room: &mut [u8]) -> Result<(), Refused>
    ensures { told result room.new ≡ encode digits.now room.old }
{
    if room.len() != 9 {
        return Err(Refused::Length);
    }
    if !writable(digits) {
        return Err(Refused::Value);
    }
    let count = digits.len();
    let mut hs = [0u8; 18];
    place(digits, 15, &mut hs, 3);
    hs[0] = (count / 2 + 1) as u8;
    hs[2] = mark(count);
    pack(&hs, room);
    Ok(())
}
