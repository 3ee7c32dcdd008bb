// The service provider's name, read and written.
#![tactic(auto)]

ghost use Rattle.std.specs.Prelude.{◌≡◌, [], false};
ghost use Rattle.codings.specs.Answers.{told, decoded};
ghost use Rattle.codings.specs.Spn.{provider, bits, writable, decode, encode};

use codings::Refused;
use codings::spn::Provider;
use fields::bytes::Bytes;
use fields::text::{closed, lead, place};

// The two bits as the first byte.
#[tactic(auto, unfolding(codings::specs::Spn::bits))]
pub fn bits(bit1: bool, bit2: bool) -> u8
    ensures { result ≡ bits bit1 bit2 }
{
    u8::from(bit1) + 2 * u8::from(bit2)
}

// The bits and the name of a file.
#[tactic(auto, unfolding(codings::specs::Answers::judge, codings::specs::Spn::decode))]
pub fn decode(s: &[u8]) -> Result<Provider, Refused>
    ensures { decoded (provider false false []) result ≡ decode s.now }
{
    if s.len() != 17 {
        return Err(Refused::Length);
    }
    let b = s[0];
    let field = &s[1..];
    if b >= 4 || !closed(field, 255, 255) {
        return Err(Refused::Value);
    }
    Ok(Provider {
        bit1: b % 2 == 1,
        bit2: b / 2 == 1,
        name: Bytes::text(field, 255),
    })
}

// Whether a file can hold the name: at most 16 bytes, none of them FF. Each kind has a test of this name, as in the definition.
#[tactic(auto, unfolding(codings::specs::Spn::writable, fields::specs::Text::within))]
fn writable(name: &[u8]) -> bool
    ensures { result ≡ writable name.now }
{
    name.len() <= 16 && lead(name, 255) == name.len()
}

// The file of these bits and this name, in the lent room. No `Provider` is taken: it could not hold a name of 17 bytes, which is refused here.
#[tactic(auto, unfolding(codings::specs::Answers::judge, codings::specs::Spn::encode, codings::specs::Spn::writable, fields::specs::Text::placed))]
pub fn encode(bit1: bool, bit2: bool, name: &[u8], room: &mut [u8]) -> Result<(), Refused>
    ensures { told result room.new ≡ encode (provider bit1 bit2 name.now) room.old }
{
    if room.len() != 17 {
        return Err(Refused::Length);
    }
    if !writable(name) {
        return Err(Refused::Value);
    }
    place(name, 255, room, 1);
    room[0] = bits(bit1, bit2);
    Ok(())
}
