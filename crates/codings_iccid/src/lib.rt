// The card's own number: its digits read and written.
#![tactic(auto)]

ghost use Rattle.std.specs.Prelude.{◌≡◌, ◌<◌, [], length};
ghost use Rattle.codings.specs.Answers.{told, decoded};
ghost use Rattle.codings.specs.Iccid.{numbered, writable, decode, encode};

use codings::Refused;
use fields::bytes::Bytes;
use fields::halves::{pack, unpack};
use fields::text::{closed, lead, place};

// Whether halves are a number's: the first is a digit, and after the digits all is F.
#[tactic(auto, unfolding(codings::specs::Iccid::numbered))]
fn numbered(hs: &[u8]) -> bool
    requires { 0 < length hs.now }
    ensures { result ≡ numbered hs.now }
{
    hs[0] < 10 && closed(hs, 10, 15)
}

// The digits of a file.
#[tactic(auto, unfolding(codings::specs::Answers::judge, codings::specs::Iccid::decode))]
pub fn decode(s: &[u8]) -> Result<Bytes<20>, Refused>
    ensures { decoded [] result ≡ decode s.now }
{
    if s.len() != 10 {
        return Err(Refused::Length);
    }
    let mut hs = [0u8; 20];
    unpack(s, &mut hs);
    if !numbered(&hs) {
        return Err(Refused::Value);
    }
    Ok(Bytes::text(&hs, 10))
}

// Whether a file can hold them: 1 to 20 digits. Each kind has a test of this name, as in the definition.
#[tactic(auto, unfolding(codings::specs::Iccid::writable, fields::specs::Text::within))]
fn writable(digits: &[u8]) -> bool
    ensures { result ≡ writable digits.now }
{
    !digits.is_empty() && digits.len() <= 20 && lead(digits, 10) == digits.len()
}

// The file of these digits, in the lent room.
#[tactic(auto, using(crate::proofs::Laws::joins), unfolding(codings::specs::Answers::judge, codings::specs::Iccid::encode, codings::specs::Iccid::writable, fields::specs::Text::placed))]
pub fn encode(digits: &[u8], room: &mut [u8]) -> Result<(), Refused>
    ensures { told result room.new ≡ encode digits.now room.old }
{
    if room.len() != 10 {
        return Err(Refused::Length);
    }
    if !writable(digits) {
        return Err(Refused::Value);
    }
    let mut hs = [0u8; 20];
    place(digits, 15, &mut hs, 0);
    pack(&hs, room);
    Ok(())
}
