// What SELECT finds: a directory that an identifier leads to, and a file that it names.
#![tactic(auto)]

ghost use Rattle.std.specs.Prelude.{◌≡◌, ◌<◌, MatchOption};
ghost use Rattle.card.specs.Layout.{file};
ghost use Rattle.card.specs.Select.{leads, named, find_directory, find_file};

use card::Directory;
use shelf::head::ImageHead;

// Whether an identifier selects directory d.
#[tactic(auto, unfolding(card::specs::Select::leads))]
fn leads(here: usize, up: u8, id: u16, d: usize, e: Directory) -> bool
    ensures { result ≡ leads here up id d e }
{
    let parent = usize::from(e.parent);
    let above = usize::from(up);
    ((d == 0) | (d == here) | (d == above) | (parent == here) | (parent == above))
        & (e.identifier == id)
}

// Whether an identifier selects file f.
#[tactic(auto, unfolding(card::specs::Select::named))]
fn named(head: &ImageHead, here: usize, id: u16, f: usize) -> bool
    requires { f < head.now.shelf.index.files }
    ensures { result ≡ named here id (file head.now.shelf.bytes.now f) }
{
    let home = usize::from(head.shelf.file_home(f));
    (home == here) & (head.shelf.file_identifier(f) == id)
}

// The number of the directory that an identifier selects. Only this player's crates call it.
pub fn find_directory(head: &ImageHead, here: usize, id: u16) -> Option<usize>
    requires { here < head.now.shelf.index.directories }
    ensures { MatchOption result
        (find_directory head.now.shelf.bytes.now here id ≡ head.now.shelf.index.directories)
        (λ d. (d < head.now.shelf.index.directories)
        × (d ≡ find_directory head.now.shelf.bytes.now here id)) }
{
    let up = head.directory(here).parent;
    for d in 0..head.shelf.index.directories {
        if leads(here, up, id, d, head.directory(d)) {
            return Some(d);
        }
    }
    None
}

// The number of the file that an identifier selects. Only this player's crates call it. A loop beside that over the directories: one
// function for both would take what it reads as a closure, and a contract on what that tells of each number is longer than the loop.
pub fn find_file(head: &ImageHead, here: usize, id: u16) -> Option<usize>
    ensures { MatchOption result
        (find_file head.now.shelf.bytes.now here id ≡ head.now.shelf.index.files)
        (λ f. (f < head.now.shelf.index.files)
        × (f ≡ find_file head.now.shelf.bytes.now here id)) }
{
    for f in 0..head.shelf.index.files {
        if named(head, here, id, f) {
            return Some(f);
        }
    }
    None
}
