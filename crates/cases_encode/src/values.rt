// Values from bytes. Bytes that are no value of their kind are read as a value outside the coding.
ghost use Rattle.std.specs.Prelude.{◌≡◌};
ghost use Rattle.codings.specs.Answers.{told};
ghost use Rattle.codings.specs.Admin.{setting};
ghost use Rattle.codings.specs.Spn.{encode};
ghost use Rattle.cases.specs.Values.{entry_of, ordered, state_of, mode_of, mnc_of, provider_of};

use cases::values::{byte, word};
use codings::Refused;
use codings::admin::Setting;
use codings::network::Network;
use codings::services::Service;
use fields::text::lead;

// An entry: none, or three digits and two.
#[tactic(auto, unfolding(cases::specs::Values::entry_of, cases::specs::Choice::choose))]
pub(crate) fn entry(v: &[u8]) -> Option<Network>
    ensures { result ≡ entry_of v.now }
{
    match *v {
        [] => None,
        [a, b, c, d, e] if lead(v, 10) == 5 => Some(Network {
            mcc: 100 * u16::from(a) + 10 * u16::from(b) + u16::from(c),
            mnc: 10 * u16::from(d) + u16::from(e),
            digits: 2,
        }),
        _ => Some(Network {
            mcc: 0,
            mnc: 0,
            digits: 0,
        }),
    }
}

// The service that is to be written: four bytes, and a state.
#[tactic(auto, unfolding(cases::specs::Values::ordered, cases::specs::Choice::choose))]
pub(crate) fn ordered(v: &[u8]) -> usize
    ensures { result ≡ ordered v.now }
{
    match *v {
        [_, _, _, _, state] if state < 3 => word(v),
        _ => 0,
    }
}

// Its state.
#[tactic(auto, unfolding(cases::specs::Values::state_of, cases::specs::Choice::choose))]
pub(crate) fn state(v: &[u8]) -> Service
    ensures { result ≡ state_of v.now }
{
    match byte(v, 4) {
        0 => Service::NotAllocated,
        1 => Service::Allocated,
        _ => Service::Activated,
    }
}

// The mode, of two bytes the first, and the MNC length, absent where it is 0.
#[tactic(auto, unfolding(cases::specs::Values::mode_of, cases::specs::Values::mnc_of, cases::specs::Choice::choose))]
pub(crate) fn setting(v: &[u8]) -> Setting
    ensures { result ≡ setting (mode_of v.now) (mnc_of v.now) }
{
    let mode = match *v {
        [mode, _] => mode,
        _ => 3,
    };
    let mnc = match byte(v, 1) {
        0 => None,
        n => Some(n),
    };
    Setting { mode, mnc }
}

// The byte of b1 and b2 and the name, encoded into the file.
#[tactic(auto, unfolding(cases::specs::Values::provider_of, cases::specs::Choice::choose))]
pub(crate) fn put_provider(v: &[u8], file: &mut [u8]) -> Result<(), Refused>
    ensures { told result file.new ≡ encode (provider_of v.now) file.old }
{
    match v {
        [b, name @ ..] if *b < 4 => codings_spn::encode(*b % 2 == 1, *b / 2 == 1, name, file),
        _ => codings_spn::encode(false, false, &[255], file),
    }
}
