// UPDATE BINARY, UPDATE RECORD and INCREASE on an image: the current file's entry is read once, and its bytes are passed on as a part of
// the image. Without a current file each answers 94 00.
#![tactic(auto)]

ghost use Rattle.std.specs.Prelude.{◌≡◌, length};
ghost use Rattle.card.specs.Binary.{update_binary};
ghost use Rattle.card.specs.Increase.{increase_by};
ghost use Rattle.card.specs.Records.{update_record};
ghost use Rattle.acts.specs.Leaves.{Writes};
ghost use Rattle.acts.specs.Ready.{Ready};

use acts_stand::stand;
use card::{Refused, Session};
use commands::answers::{Reply, refusal};

// Where the top stands in a file's entry.
const TOP: usize = 12;

// The bytes from a place on become others. Only this player's crates call it.
pub fn update_binary(image: &mut [u8], s: Session, at: usize, new: &[u8]) -> Reply
    requires { Ready image.old s }
    ensures { Writes (λ r e b. update_binary r e b s at new.now) image.old s result image.new }
{
    let Some(f) = s.current else {
        return refusal(s, u16::from(Refused::NoFile));
    };
    let p = stand(image, s, f);
    commands_binary::update_binary(p.rights, p.entry, &mut image[p.start..p.end], s, at, new)
}

// A record becomes another; the top is written after it. Only this player's crates call it.
pub fn update_record(image: &mut [u8], s: Session, number: usize, mode: usize, new: &[u8]) -> Reply
    requires { Ready image.old s }
    ensures { Writes (λ r e b. update_record r e b s number mode new.now) image.old s result image.new }
{
    let Some(f) = s.current else {
        return refusal(s, u16::from(Refused::NoFile));
    };
    let p = stand(image, s, f);
    let w = commands_records::update_record(
        p.rights,
        p.entry,
        &mut image[p.start..p.end],
        s,
        number,
        mode,
        new,
    );
    image[p.at + TOP] = w.top;
    w.reply
}

// Record 1 plus three bytes, as a new record 1; the top is written after it. Only this player's crates call it.
pub fn increase_by(image: &mut [u8], s: Session, added: &[u8]) -> Reply
    requires ready { Ready image.old s }
    requires added_len { length added.now ≡ 3 }
    ensures { Writes (λ r e b. increase_by r e b s added.now) image.old s result image.new }
{
    let Some(f) = s.current else {
        return refusal(s, u16::from(Refused::NoFile));
    };
    let p = stand(image, s, f);
    let w = commands_increase::increase_by(p.rights, p.entry, &mut image[p.start..p.end], s, added);
    image[p.at + TOP] = w.top;
    w.reply
}
