// VERIFY, CHANGE, DISABLE, ENABLE and UNBLOCK, each on the 20 bytes of its code's entry. `Sized` stands in the contracts and in no type: the
// entry and the given bytes are taken as slices, as before, and arrays would ask more of who calls.
ghost use Rattle.std.specs.Prelude.{◌≡◌, ◌-◌, ◌%◌};
ghost use Rattle.card.specs.Layout.{disabled};
ghost use Rattle.card.specs.Codes.{verify, change, disable, enable, unblock};
ghost use Rattle.commands.specs.Gives.{Codes};
ghost use Rattle.commands_codes.specs.Sized.{Sized};

use card::{Code, Session};
use code_tests::{Key, Renewal, eight, tested};
use commands::answers::Reply;

fn disabled(k: Code) -> bool
    ensures { result ≡ disabled k }
{
    k.flags % 2 == 1
}

// The flags of an entry whose code is enabled.
fn enabled(k: Code) -> u8
    ensures { result ≡ k.flags - k.flags % 2 }
{
    k.flags - k.flags % 2
}

// A renewal that keeps the flags and the unblock attempts.
fn keeping(k: Code, code: [u8; 8]) -> Renewal
    ensures { result ≡ record { flags = k.flags; unblocks = k.unblocks; code = code } }
{
    Renewal {
        flags: k.flags,
        unblocks: k.unblocks,
        code,
    }
}

// VERIFY. Only this player's crates call it.
#[tactic(auto, using(crate::proofs::Renewing::verified), unfolding(code_tests::specs::Keys::keyed))]
pub fn verify(e: &mut [u8], s: Session, c: usize, given: &[u8]) -> Reply
    requires { Sized e.old given.now 8 }
    ensures { Codes (verify e.old s c given.now) result e.new }
{
    let k = entries::code(e, 0);
    let code = eight(given, 0);
    tested(e, s, c, Key::Chv, disabled(k), code, keeping(k, code))
}

// The second eight bytes become the code. Only this player's crates call it.
#[tactic(auto, using(crate::proofs::Renewing::changed), unfolding(code_tests::specs::Keys::keyed))]
pub fn change(e: &mut [u8], s: Session, c: usize, given: &[u8]) -> Reply
    requires { Sized e.old given.now 16 }
    ensures { Codes (change e.old s c given.now) result e.new }
{
    let k = entries::code(e, 0);
    let (old, new) = (eight(given, 0), eight(given, 8));
    tested(e, s, c, Key::Chv, disabled(k), old, keeping(k, new))
}

// Flag b1 becomes 1. Only this player's crates call it.
#[tactic(auto, using(crate::proofs::Renewing::is_disabled), unfolding(code_tests::specs::Keys::keyed))]
pub fn disable(e: &mut [u8], s: Session, c: usize, given: &[u8]) -> Reply
    requires { Sized e.old given.now 8 }
    ensures { Codes (disable e.old s c given.now) result e.new }
{
    let k = entries::code(e, 0);
    let code = eight(given, 0);
    let to = Renewal {
        flags: enabled(k) + 1,
        ..keeping(k, code)
    };
    tested(e, s, c, Key::Chv, disabled(k), code, to)
}

// Flag b1 becomes 0. Only this player's crates call it.
#[tactic(auto, using(crate::proofs::Renewing::is_enabled), unfolding(code_tests::specs::Keys::keyed))]
pub fn enable(e: &mut [u8], s: Session, c: usize, given: &[u8]) -> Reply
    requires { Sized e.old given.now 8 }
    ensures { Codes (enable e.old s c given.now) result e.new }
{
    let k = entries::code(e, 0);
    let code = eight(given, 0);
    let to = Renewal {
        flags: enabled(k),
        ..keeping(k, code)
    };
    tested(e, s, c, Key::Chv, !disabled(k), code, to)
}

// The unblock code is tested; flag b1 becomes 0, and the second eight bytes become the code. Only this player's crates call it.
#[tactic(auto, using(crate::proofs::Renewing::unblocked), unfolding(code_tests::specs::Keys::keyed))]
pub fn unblock(e: &mut [u8], s: Session, c: usize, given: &[u8]) -> Reply
    requires { Sized e.old given.now 16 }
    ensures { Codes (unblock e.old s c given.now) result e.new }
{
    let k = entries::code(e, 0);
    let (old, new) = (eight(given, 0), eight(given, 8));
    let to = Renewal {
        flags: enabled(k),
        unblocks: 10,
        code: new,
    };
    tested(e, s, c, Key::Unblocking, false, old, to)
}
