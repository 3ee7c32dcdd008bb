// VERIFY, CHANGE, DISABLE, ENABLE and UNBLOCK on an image. The 20 bytes of the code's entry go on as a part of the image, and the command
// sees nothing else of it.
#![tactic(auto)]

ghost use Rattle.std.specs.Prelude.{◌≡◌, ◌+◌, ◌<◌, length};
ghost use Rattle.card.specs.Codes.{verify, change, disable, enable, unblock};
ghost use Rattle.card.specs.Layout.{code_at};
ghost use Rattle.acts.specs.Leaves.{Codes};
ghost use Rattle.acts.specs.Ready.{Ready};

use card::Session;
use commands::answers::Reply;
use commands_codes::codes;
use std::ops::Range;

// Where the codes' entries start, and how long each of them is.
const CODES: usize = 2;

const ENTRY: usize = 20;

// The place of code c's entry in the image.
fn entry(c: usize) -> Range<usize>
    requires { c < 2 }
    ensures { (result.start ≡ code_at c) × (result.end ≡ code_at c + 20) }
{
    let at = CODES + ENTRY * c;
    at..at + ENTRY
}

// VERIFY of code c, 0 for CHV1 and 1 for CHV2. Only this player's crates call it, after the tests of the image and the session.
#[tactic(auto, using(crate::proofs::Entering::inside))]
pub fn verify(image: &mut [u8], s: Session, c: usize, given: &[u8]) -> Reply
    requires ready { Ready image.old s }
    requires c_bound { (c < 2) × (length given.now ≡ 8) }
    ensures { Codes (λ e c. verify e s c given.now) image.old s c result image.new }
{
    codes::verify(&mut image[entry(c)], s, c, given)
}

// CHANGE of code c: the old code and the new one. Only this player's crates call it, after the tests of the image and the session.
#[tactic(auto, using(crate::proofs::Entering::inside))]
pub fn change(image: &mut [u8], s: Session, c: usize, given: &[u8]) -> Reply
    requires ready { Ready image.old s }
    requires c_bound { (c < 2) × (length given.now ≡ 16) }
    ensures { Codes (λ e c. change e s c given.now) image.old s c result image.new }
{
    codes::change(&mut image[entry(c)], s, c, given)
}

// DISABLE of CHV1. Only this player's crates call it, after the tests of the image and the session.
#[tactic(auto, using(crate::proofs::Entering::inside))]
pub fn disable(image: &mut [u8], s: Session, given: &[u8]) -> Reply
    requires ready { Ready image.old s }
    requires given_len { length given.now ≡ 8 }
    ensures { Codes (λ e c. disable e s c given.now) image.old s 0 result image.new }
{
    codes::disable(&mut image[entry(0)], s, 0, given)
}

// ENABLE of CHV1. Only this player's crates call it, after the tests of the image and the session.
#[tactic(auto, using(crate::proofs::Entering::inside))]
pub fn enable(image: &mut [u8], s: Session, given: &[u8]) -> Reply
    requires ready { Ready image.old s }
    requires given_len { length given.now ≡ 8 }
    ensures { Codes (λ e c. enable e s c given.now) image.old s 0 result image.new }
{
    codes::enable(&mut image[entry(0)], s, 0, given)
}

// UNBLOCK of code c: its unblock code and the new code. Only this player's crates call it, after the tests of the image and the session.
#[tactic(auto, using(crate::proofs::Entering::inside))]
pub fn unblock(image: &mut [u8], s: Session, c: usize, given: &[u8]) -> Reply
    requires ready { Ready image.old s }
    requires c_bound { (c < 2) × (length given.now ≡ 16) }
    ensures { Codes (λ e c. unblock e s c given.now) image.old s c result image.new }
{
    codes::unblock(&mut image[entry(c)], s, c, given)
}
