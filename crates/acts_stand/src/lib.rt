// What a command on the current file goes by, read from the image once: the laws of such a command stand beside it.
#![tactic(auto)]

ghost use Rattle.std.specs.Prelude.{◌≡◌, ◌+◌, ◌*◌, ◌<◌, ◌≤◌, length, Some};
ghost use Rattle.card.specs.Access.{rights};
ghost use Rattle.card.specs.Layout.{start};
ghost use Rattle.shelf.specs.Reads.{Indexed};
ghost use Rattle.acts.specs.Ready.{Ready};
ghost use Rattle.acts_stand.specs.Here.{Spotted, Here};

use card::{Entry, Index, Rights, Session};
use entries::{CHV1, CHV2};
use shelf::read;

// The rights, the file's entry and the entry's place.
#[derive(Clone, Copy)]
pub struct Site {
    pub rights: Rights,
    pub entry: Entry,
    pub at: usize,
}

// The same, and where the file's bytes start and end.
#[derive(Clone, Copy)]
pub struct Place {
    pub rights: Rights,
    pub entry: Entry,
    pub at: usize,
    pub start: usize,
    pub end: usize,
}

// Which of levels 1 and 2 the codes and the session fulfil.
fn rights(l: &[u8], s: Session) -> Rights
    requires { 42 ≤ length l.now }
    ensures { result ≡ rights l.now s }
{
    let one = entries::code(l, CHV1);
    let two = entries::code(l, CHV2);
    Rights {
        level1: (0 < one.attempts) & ((one.flags % 2 == 1) | s.chv1),
        level2: (0 < two.attempts) & s.chv2,
    }
}

// Where the bytes of file f start: after the bytes of the files before it.
fn start(l: &[u8], i: Index, f: usize) -> usize
    requires indexed { Indexed l.now i }
    requires f_bound { (f < 65536) × (i.table + 14 * f ≤ length l.now) }
    ensures { result ≡ start l.now f }
{
    let table = i.table;
    let mut sum: usize = 0;
    for g in 0..f {
        sum += usize::from(entries::word(l, table + 14 * g + 10));
    }
    i.store + sum
}

// The current file, but for its bytes: no size is summed up. Only this player's crates call it.
pub fn spot(l: &[u8], s: Session, f: usize) -> Site
    requires ready { Ready l.now s }
    requires current_value { s.current ≡ Some f }
    ensures { Spotted l.now s f result }
{
    let i = read::image_index(l);
    let at = i.table + 14 * f;
    let rights = rights(l, s);
    let entry = entries::file(l, at);
    Site { rights, entry, at }
}

// The current file. Only this player's crates call it.
pub fn stand(l: &[u8], s: Session, f: usize) -> Place
    requires ready { Ready l.now s }
    requires current_value { s.current ≡ Some f }
    ensures { Here l.now s f result }
{
    let site = spot(l, s, f);
    let start = start(l, read::image_index(l), f);
    let end = start + usize::from(site.entry.size);
    Place {
        rights: site.rights,
        entry: site.entry,
        at: site.at,
        start,
        end,
    }
}
