// Whether a session fits the head of an image. The counts and the length are known to be an image's, the entries not.
ghost use Rattle.std.specs.Prelude.{◌≡◌};
ghost use Rattle.card.specs.Layout.{head};
ghost use Rattle.card.specs.Sessions.{pointed, stands, padded, fits};

use crate::whole::Sections;
use card::{Entry, Session};

// A pointer stands only on a file with records and within them.
fn pointed(e: Entry, p: Option<usize>) -> bool
    ensures { result ≡ pointed e p }
{
    match p {
        None => true,
        Some(n) => (e.structure != 0) & (0 < n) & (n <= entries::records(e)),
    }
}

// The current file lies in the current directory.
fn stands(s: &Sections, d: usize, c: Option<usize>, p: Option<usize>) -> bool
    ensures { result ≡ stands (head s.now.image.now) d c p }
{
    let Some(f) = c else {
        return p.is_none();
    };
    if f < s.index.files {
        let e = s.file(f);
        (usize::from(e.home) == d) & pointed(e, p)
    } else {
        false
    }
}

// At most 22 bytes wait, and the rest is zero. Nothing waits after most commands: then all is compared at once.
fn padded(waiting: [u8; 22], count: usize) -> bool
    ensures { result ≡ padded waiting count }
{
    if count == 0 {
        return waiting == [0; 22];
    }
    match waiting.get(count..) {
        None => false,
        Some(rest) => rest.iter().all(|b| *b == 0),
    }
}

// The directory exists, the current file lies in it, and what waits is padded.
pub fn fits(sections: &Sections, s: Session) -> bool
    ensures { result ≡ fits (head sections.now.image.now) s }
{
    (s.directory < sections.index.directories)
        & stands(sections, s.directory, s.current, s.pointer)
        & padded(s.waiting, s.count)
}
