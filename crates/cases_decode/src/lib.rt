// The decode of a case, and the answer to an unknown operation. What they mean is the definition, in `cases`.
#![tactic(auto)]

mod shown;

ghost use Rattle.std.specs.Prelude.{◌≡◌, []};
ghost use Rattle.codings.specs.Answers.{code, decoded};
ghost use Rattle.cases.specs.Values.{asked};
ghost use Rattle.cases.specs.Cases.{decode, other};

use cases::kinds::Kind;
use cases::values::word;
use codings::Refused;
use fields::bytes::Bytes;

// The service that is asked for: four bytes.
#[tactic(auto, unfolding(cases::specs::Values::asked, cases::specs::Choice::choose))]
fn asked(v: &[u8]) -> usize
    ensures { result ≡ asked v.now }
{
    if v.len() == 4 { word(v) } else { 0 }
}

// What a decode shows of the file. Only a service table takes a value, the service's number.
#[tactic(auto, unfolding(cases::specs::Cases::decode))]
pub fn decode(kind: Kind, value: &[u8], file: &[u8]) -> Result<Bytes<20>, Refused>
    ensures { decoded [] result ≡ decode kind value.now file.now }
{
    match kind {
        Kind::Iccid => shown::alone(value, codings_iccid::decode(file)),
        Kind::Imsi => shown::alone(value, shown::imsi(file)),
        Kind::Network => shown::alone(value, shown::network(file)),
        Kind::Services => shown::service(file, asked(value)),
        Kind::Spn => shown::alone(value, shown::spn(file)),
        Kind::Admin => shown::alone(value, shown::admin(file)),
        Kind::Unknown => Err(Refused::Value),
    }
}

// The answer to an unknown operation, which changes nothing and shows no value.
#[tactic(auto, unfolding(cases::specs::Cases::other, cases::specs::Shown::refusal, cases::specs::Choice::choose))]
pub fn other(kind: Kind, file: &[u8]) -> Refused
    ensures { code result ≡ other kind file.now }
{
    match decode(kind, b"", file) {
        Err(refused) => refused,
        Ok(_) => Refused::Value,
    }
}
