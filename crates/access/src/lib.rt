// Access conditions, invalidation, and the refusals that every command on a file shares. Rights and an entry go together as two
// parameters and as no struct: so the definition's functions take them, in whose words each command makes its promise.
#![tactic(auto)]

ghost use Rattle.std.specs.Prelude.{◌≡◌, [], true, false, OnOk};
ghost use Rattle.card.specs.Access.{level, fulfilled, allowed, valid, usable, barred, shared};
ghost use Rattle.card.specs.Answers.{first};
ghost use Rattle.card.specs.Refused.{word_in};

use card::{Act, Entry, Refused, Rights};

// The half of the access bytes that an act goes by.
fn level(e: Entry, a: Act) -> u8
    ensures { result ≡ level e a }
{
    match a {
        Act::Read | Act::Seek => e.access1 / 16,
        Act::Update => e.access1 % 16,
        Act::Increase => e.access2 / 16,
        Act::Rehabilitate => e.access3 / 16,
        Act::Invalidate => e.access3 % 16,
    }
}

// Level 0 always; 1 and 2 by their codes; 3 to F never.
fn fulfilled(r: Rights, n: u8) -> bool
    ensures { result ≡ fulfilled r n }
{
    match n {
        0 => true,
        1 => r.level1,
        2 => r.level2,
        _ => false,
    }
}

fn allowed(r: Rights, e: Entry, a: Act) -> bool
    ensures { result ≡ allowed r e a }
{
    fulfilled(r, level(e, a))
}

// Status b1, and status b3.
fn valid(e: Entry) -> bool
    ensures { result ≡ valid e }
{
    e.status % 2 == 1
}

fn usable(e: Entry) -> bool
    ensures { result ≡ usable e }
{
    e.status / 4 % 2 == 1
}

// Whether the mark stands in an act's way.
fn barred(e: Entry, a: Act) -> bool
    ensures { result ≡ barred e a }
{
    match a {
        Act::Read | Act::Update => !(valid(e) || usable(e)),
        Act::Seek | Act::Increase | Act::Invalidate => !valid(e),
        Act::Rehabilitate => valid(e),
    }
}

// The first shared refusal that holds.
#[tactic(auto, unfolding(card::specs::Access::shared, card::specs::Answers::first))]
pub fn shared(r: Rights, e: Entry, a: Act, suits: bool) -> Result<(), Refused>
    ensures refused { word_in result ≡ first (shared r e a suits []) }
    ensures granted { OnOk result ((suits ≡ true) × (barred e a ≡ false) × (allowed r e a ≡ true)) }
{
    if !suits {
        return Err(Refused::Unsuited);
    }
    if barred(e, a) {
        return Err(Refused::Invalidated);
    }
    if !allowed(r, e, a) {
        return Err(Refused::NotAllowed);
    }
    Ok(())
}
