// The administrative data, mode of operation and length of the MNC in the IMSI, read and written.
#![tactic(auto)]

ghost use Rattle.std.specs.Prelude.{◌≡◌, ◌&&◌, None};
ghost use Rattle.codings.specs.Answers.{told, decoded};
ghost use Rattle.codings.specs.Admin.{setting, is_mode, two_or_three, fitting, decode, encode};

use codings::Refused;
use codings::admin::Setting;
use fields::halves::{high, low};

#[tactic(auto, unfolding(codings::specs::Admin::among))]
fn is_mode(m: u8) -> bool
    ensures { result ≡ is_mode m }
{
    matches!(m, 0x00 | 0x80 | 0x01 | 0x81 | 0x02 | 0x04)
}

#[tactic(auto, unfolding(codings::specs::Admin::among))]
fn two_or_three(n: u8) -> bool
    ensures { result ≡ two_or_three n }
{
    matches!(n, 2 | 3)
}

// Whether the MNC length fits the file: none in three bytes and only there, else 2 or 3.
#[tactic(auto, unfolding(codings::specs::Admin::fitting))]
fn fitting(s: &[u8], mnc: Option<u8>) -> bool
    ensures { result ≡ fitting s.now mnc }
{
    match mnc {
        None => s.len() == 3,
        Some(n) => s.len() != 3 && two_or_three(n),
    }
}

// Whether a file can hold it.
fn valid(s: &[u8], v: Setting) -> bool
    ensures { result ≡ is_mode v.mode && fitting s.now v.mnc }
{
    is_mode(v.mode) && fitting(s, v.mnc)
}

// The mode and the MNC length of a file.
#[tactic(auto, unfolding(codings::specs::Answers::judge, codings::specs::Admin::decode, codings::specs::Admin::mnc_in))]
pub fn decode(s: &[u8]) -> Result<Setting, Refused>
    ensures { decoded (setting 0 None) result ≡ decode s.now }
{
    if s.len() < 3 {
        return Err(Refused::Length);
    }
    let v = Setting {
        mode: s[0],
        mnc: s.get(3).map(|&b| low(b)),
    };
    if !valid(s, v) {
        return Err(Refused::Value);
    }
    Ok(v)
}

// Mode and MNC length into the lent file, whose other bits are kept.
#[tactic(auto, unfolding(codings::specs::Answers::judge, codings::specs::Admin::encode, codings::specs::Admin::changed), using(crate::proofs::Laws::fits, std::proofs::lemmas::List::set_comm))]
pub fn encode(v: Setting, s: &mut [u8]) -> Result<(), Refused>
    ensures { told result s.new ≡ encode v s.old }
{
    if s.len() < 3 {
        return Err(Refused::Length);
    }
    if !valid(s, v) {
        return Err(Refused::Value);
    }
    if let Some(n) = v.mnc {
        s[3] = 16 * high(s[3]) + n;
    }
    s[0] = v.mode;
    Ok(())
}
