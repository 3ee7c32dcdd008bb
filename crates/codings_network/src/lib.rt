// The entry of a network in a list of networks, read and written.
#![tactic(auto)]

ghost use Rattle.std.specs.Prelude.{◌≡◌, Some, None};
ghost use Rattle.codings.specs.Answers.{told, decoded};
ghost use Rattle.codings.specs.Network.{named, network, decode, writable, encode};

use codings::Refused;
use codings::network::Network;
use fields::halves::unpack;
use fields::text::{filled, lead};

// Whether six halves name a network.
#[tactic(auto, unfolding(codings::specs::Network::named))]
fn named(hs: &[u8; 6]) -> bool
    ensures { result ≡ named hs.now }
{
    lead(hs, 10) == 3 && hs[3] == 15 && lead(&hs[4..], 10) == 2
}

// The network that six halves name.
#[tactic(auto, unfolding(codings::specs::Network::network))]
fn network(hs: &[u8; 6]) -> Network
    ensures { Some result ≡ network hs.now }
{
    Network {
        mcc: 100 * u16::from(hs[0]) + 10 * u16::from(hs[1]) + u16::from(hs[2]),
        mnc: 10 * u16::from(hs[4]) + u16::from(hs[5]),
        digits: 2,
    }
}

// The entry of three bytes.
#[tactic(auto, unfolding(codings::specs::Answers::judge, codings::specs::Network::decode, codings::specs::Network::entry_in))]
pub fn decode(s: &[u8]) -> Result<Option<Network>, Refused>
    ensures { decoded None result ≡ decode s.now }
{
    if s.len() != 3 {
        return Err(Refused::Length);
    }
    if filled(s, 255) {
        return Ok(None);
    }
    let mut hs = [0u8; 6];
    unpack(s, &mut hs);
    if !named(&hs) {
        return Err(Refused::Value);
    }
    Ok(Some(network(&hs)))
}

// Whether three bytes can hold it: an MCC of three digits, an MNC of two.
#[tactic(auto, unfolding(codings::specs::Network::writable))]
fn writable(e: Option<Network>) -> bool
    ensures { result ≡ writable e }
{
    match e {
        None => true,
        Some(n) => n.mcc < 1000 && n.mnc < 100 && n.digits == 2,
    }
}

// The three bytes of an entry, in the lent room.
#[tactic(auto, unfolding(codings::specs::Answers::judge, codings::specs::Network::encode, codings::specs::Network::writable, codings::specs::Network::bytes, fields::specs::Halves::joined))]
pub fn encode(e: Option<Network>, room: &mut [u8]) -> Result<(), Refused>
    ensures { told result room.new ≡ encode e room.old }
{
    if room.len() != 3 {
        return Err(Refused::Length);
    }
    if !writable(e) {
        return Err(Refused::Value);
    }
    match e {
        None => room.fill(255),
        Some(Network { mcc, mnc, .. }) => {
            let a = (mcc / 100 + 16 * (mcc / 10 % 10)) as u8;
            let b = (mcc % 10 + 16 * 15) as u8;
            let c = (mnc / 10 + 16 * (mnc % 10)) as u8;
            room.copy_from_slice(&[a, b, c]);
        }
    }
    Ok(())
}
