// READ BINARY, READ RECORD and SEEK on an image: the current file's entry is read once, and its bytes are passed on as a part of the image.
// Without a current file each answers 94 00.
#![tactic(auto)]

ghost use Rattle.std.specs.Prelude.{List, ℕ, ◌/◌, ◌≤◌, ◌<◌, length};
ghost use Rattle.card.specs.Binary.{read_binary};
ghost use Rattle.card.specs.Records.{read_record};
ghost use Rattle.card.specs.Seek.{seek_record};
ghost use Rattle.acts.specs.Leaves.{Reads};
ghost use Rattle.acts.specs.Ready.{Ready};

use acts_stand::stand;
use card::{Refused, Session};
use commands::answers::{Reply, refusal};

// The n bytes from a place on, into the room. Only this player's crates call it.
pub fn read_binary(image: &[u8], s: Session, at: usize, n: usize, room: &mut [u8]) -> Reply
    requires ready { Ready image.now s }
    requires n_in_bounds { n ≤ length room.old }
    ensures { Reads (λ r e b. read_binary r e b s at n) image.now s result room.old room.new }
{
    let Some(f) = s.current else {
        return refusal(s, u16::from(Refused::NoFile));
    };
    let p = stand(image, s, f);
    commands_binary::read_binary(p.rights, p.entry, &image[p.start..p.end], s, at, n, room)
}

// A record of n bytes, into the room. Only this player's crates call it.
pub fn read_record(
    image: &[u8],
    s: Session,
    number: usize,
    mode: usize,
    n: usize,
    room: &mut [u8],
) -> Reply
    requires ready { Ready image.now s }
    requires n_in_bounds { n ≤ length room.old }
    ensures { Reads (λ r e b. read_record r e b s number mode n) image.now s result room.old room.new }
{
    let Some(f) = s.current else {
        return refusal(s, u16::from(Refused::NoFile));
    };
    let p = stand(image, s, f);
    commands_records::read_record(
        p.rights,
        p.entry,
        &image[p.start..p.end],
        s,
        number,
        mode,
        n,
        room,
    )
}

// The first record in a direction that starts with the pattern. Only this player's crates call it.
pub fn seek_record(image: &[u8], s: Session, mode: usize, pattern: &[u8]) -> Reply
    requires ready { Ready image.now s }
    requires mode_bound { mode / 16 < 2 }
    ensures { (room : List ℕ) → Reads (λ r e b. seek_record r e b s mode pattern.now) image.now s result room room }
{
    let Some(f) = s.current else {
        return refusal(s, u16::from(Refused::NoFile));
    };
    let p = stand(image, s, f);
    commands_seek::seek_record(p.rights, p.entry, &image[p.start..p.end], s, mode, pattern)
}
