// The service table, two bits a service, four services a byte: a service read and written.
#![tactic(auto)]

ghost use Rattle.std.specs.Prelude.{◌≡◌, ◌<◌};
ghost use Rattle.codings.specs.Answers.{told, decoded};
ghost use Rattle.codings.specs.Services.{unit, pair_of, said, says, changed, read, write};
ghost use Rattle.codings.specs.declared.services.Service.TheVariants.{NotAllocated};

use codings::Refused;
use codings::services::Service;

// The value of the first bit of place i in its byte.
#[tactic(auto, unfolding(codings::specs::Services::unit), using(crate::proofs::Laws::unit_fits))]
fn unit(i: usize) -> u8
    ensures { result ≡ unit i }
{
    4u8.pow((i % 4) as u32)
}

// What two bits say.
#[tactic(auto, unfolding(codings::specs::Services::said))]
fn said(p: u8) -> Service
    ensures { result ≡ said p }
{
    if p % 2 == 0 {
        Service::NotAllocated
    } else if p / 2 == 0 {
        Service::Allocated
    } else {
        Service::Activated
    }
}

// The two bits that say so in the place of p.
#[tactic(auto, unfolding(codings::specs::Services::says))]
fn says(v: Service, p: u8) -> u8
    requires { p < 4 }
    ensures { (result ≡ says v p) × (result < 4) }
{
    match v {
        Service::NotAllocated => p / 2 * 2,
        Service::Allocated => 1,
        Service::Activated => 3,
    }
}

// The two bits at place i of a byte.
#[tactic(auto, unfolding(codings::specs::Services::pair_of), using(crate::proofs::Laws::some_unit))]
fn pair_of(b: u8, i: usize) -> u8
    ensures { (result ≡ pair_of b i) × (result < 4) }
{
    b / unit(i) % 4
}

// The byte with the two bits at place i changed.
#[tactic(auto, unfolding(codings::specs::Services::changed), using(crate::proofs::Laws::pair_part, crate::proofs::Laws::pair_fits, crate::proofs::Laws::byte_fits))]
fn changed(b: u8, i: usize, v: Service) -> u8
    ensures { result ≡ changed b i v }
{
    let u = unit(i);
    let p = pair_of(b, i);
    b - p * u + says(v, p) * u
}

// What the table says of service n.
#[tactic(auto, using(crate::proofs::Laws::past_end), unfolding(codings::specs::Answers::judge, codings::specs::Services::read))]
pub fn read(s: &[u8], n: usize) -> Result<Service, Refused>
    ensures { decoded NotAllocated result ≡ read s.now n }
{
    if s.len() < 2 {
        return Err(Refused::Length);
    }
    if n == 0 {
        return Err(Refused::Value);
    }
    let i = n - 1;
    let Some(&b) = s.get(i / 4) else {
        return Ok(Service::NotAllocated);
    };
    Ok(said(pair_of(b, i)))
}

// Service n of the lent table; all other bits are kept.
#[tactic(auto, unfolding(codings::specs::Answers::judge, codings::specs::Services::write))]
pub fn write(s: &mut [u8], n: usize, v: Service) -> Result<(), Refused>
    ensures { told result s.new ≡ write s.old n v }
{
    if s.len() < 2 {
        return Err(Refused::Length);
    }
    if n == 0 {
        return Err(Refused::Value);
    }
    let i = n - 1;
    let at = i / 4;
    if at >= s.len() {
        return Err(Refused::Value);
    }
    s[at] = changed(s[at], i, v);
    Ok(())
}
