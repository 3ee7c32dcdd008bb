// The encode of a case. What it means is the definition, in `cases`.
#![tactic(auto)]

mod values;

ghost use Rattle.std.specs.Prelude.{◌≡◌};
ghost use Rattle.codings.specs.Answers.{told};
ghost use Rattle.cases.specs.Cases.{encode};

use cases::kinds::Kind;
use codings::Refused;

// Encodes the value into the file.
#[tactic(auto, unfolding(cases::specs::Cases::encode))]
pub fn encode(kind: Kind, value: &[u8], file: &mut [u8]) -> Result<(), Refused>
    ensures { told result file.new ≡ encode kind value.now file.old }
{
    match kind {
        Kind::Iccid => codings_iccid::encode(value, file),
        Kind::Imsi => codings_imsi::encode(value, file),
        Kind::Network => codings_network::encode(values::entry(value), file),
        Kind::Services => codings_services::write(
            file,
            values::ordered(value),
            values::state(value),
        ),
        Kind::Spn => values::put_provider(value, file),
        Kind::Admin => codings_admin::encode(values::setting(value), file),
        Kind::Unknown => Err(Refused::Value),
    }
}
