// What a decode shows of each kind.
ghost use Rattle.std.specs.Prelude.{◌≡◌, [], length};
ghost use Rattle.codings.specs.Answers.{decoded};
ghost use Rattle.codings.specs.Imsi.{decode as imsi_in};
ghost use Rattle.codings.specs.Network.{decode as network_in};
ghost use Rattle.codings.specs.Services.{read as service_in};
ghost use Rattle.codings.specs.Spn.{decode as spn_in};
ghost use Rattle.codings.specs.Admin.{decode as admin_in};
ghost use Rattle.cases.specs.Values.{entry_bytes, state_byte, state_bytes, provider_bytes, mnc_byte, setting_bytes};
ghost use Rattle.cases.specs.Shown.{alone, shown};

use codings::Refused;
use codings::admin::Setting;
use codings::network::Network;
use codings::services::Service;
use codings::spn::Provider;
use fields::bytes::Bytes;

// A decode that takes no value: where one was given, it is refused; a wrong length stays one.
#[tactic(auto, unfolding(cases::specs::Shown::alone, cases::specs::Shown::refusal, cases::specs::Choice::choose))]
pub(crate) fn alone(given: &[u8], shown: Result<Bytes<20>, Refused>) -> Result<Bytes<20>, Refused>
    ensures { decoded [] result ≡ alone (length given.now) (decoded [] shown) }
{
    if given.is_empty() {
        return shown;
    }
    shown.and(Err(Refused::Value))
}

pub(crate) fn imsi(file: &[u8]) -> Result<Bytes<20>, Refused>
    ensures { decoded [] result ≡ imsi_in file.now }
{
    let digits = codings_imsi::decode(file)?;
    let mut value = Bytes::new();
    value.push_all(digits.as_slice());
    Ok(value)
}

// The digits of a network, and no bytes for an unused entry.
fn entry_bytes(e: Option<Network>) -> Bytes<20>
    ensures { result ≡ entry_bytes e }
{
    let mut value = Bytes::new();
    if let Some(Network { mcc, mnc, .. }) = e {
        value.push_all(&[
            (mcc / 100 % 10) as u8,
            (mcc / 10 % 10) as u8,
            (mcc % 10) as u8,
            (mnc / 10 % 10) as u8,
            (mnc % 10) as u8,
        ]);
    }
    value
}

#[tactic(auto, unfolding(cases::specs::Shown::shown, cases::specs::Choice::choose))]
pub(crate) fn network(file: &[u8]) -> Result<Bytes<20>, Refused>
    ensures { decoded [] result ≡ shown entry_bytes (network_in file.now) }
{
    codings_network::decode(file).map(entry_bytes)
}

fn state_byte(v: Service) -> u8
    ensures { result ≡ state_byte v }
{
    match v {
        Service::NotAllocated => 0,
        Service::Allocated => 1,
        Service::Activated => 2,
    }
}

fn state_bytes(v: Service) -> Bytes<20>
    ensures { result ≡ state_bytes v }
{
    let mut value = Bytes::new();
    value.push(state_byte(v));
    value
}

#[tactic(auto, unfolding(cases::specs::Shown::shown, cases::specs::Choice::choose))]
pub(crate) fn service(file: &[u8], n: usize) -> Result<Bytes<20>, Refused>
    ensures { decoded [] result ≡ shown state_bytes (service_in file.now n) }
{
    codings_services::read(file, n).map(state_bytes)
}

// The byte of b1 and b2, and the name.
fn provider_bytes(p: Provider) -> Bytes<20>
    ensures { result ≡ provider_bytes p }
{
    let mut value = Bytes::new();
    value.push(codings_spn::bits(p.bit1, p.bit2));
    value.push_all(p.name.as_slice());
    value
}

#[tactic(auto, unfolding(cases::specs::Shown::shown, cases::specs::Choice::choose))]
pub(crate) fn spn(file: &[u8]) -> Result<Bytes<20>, Refused>
    ensures { decoded [] result ≡ shown provider_bytes (spn_in file.now) }
{
    codings_spn::decode(file).map(provider_bytes)
}

// Mode and MNC length, 0 if it is absent.
fn setting_bytes(v: Setting) -> Bytes<20>
    ensures { result ≡ setting_bytes v }
{
    let mut value = Bytes::new();
    value.push_all(&[v.mode, v.mnc.unwrap_or(0)]);
    value
}

#[tactic(auto, unfolding(cases::specs::Shown::shown, cases::specs::Choice::choose))]
pub(crate) fn admin(file: &[u8]) -> Result<Bytes<20>, Refused>
    ensures { decoded [] result ≡ shown setting_bytes (admin_in file.now) }
{
    codings_admin::decode(file).map(setting_bytes)
}
