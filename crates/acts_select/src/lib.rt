// SELECT and STATUS on an image. What decides sees the head alone, which is all before the files' bytes.
#![tactic(auto)]

ghost use Rattle.std.specs.Prelude.{◌≡◌, List, ℕ, ◌<◌, ◌≤◌, length};
ghost use Rattle.card.specs.Layout.{head};
ghost use Rattle.card.specs.Select.{first_pointer, select, tell_status};
ghost use Rattle.acts.specs.Leaves.{Tells};
ghost use Rattle.acts.specs.Ready.{Ready};
ghost use Rattle.acts_select.specs.Finds.{found_directory, found_file};

use card::{Entry, Refused, Session};
use commands::answers::{Reply, refusal};
use commands_select::select::{selected, tell_status};
use shelf::head::ImageHead;

// What SELECT enters, from where the bytes on it stand in these, and how many they are: 26 bytes and a place and no bytes of their own, so
// that 22 are copied at once.
#[derive(Clone, Copy)]
struct Found {
    directory: usize,
    current: Option<usize>,
    pointer: Option<usize>,
    told: [u8; 26],
    from: usize,
    count: usize,
}

// A directory, without a file.
fn found_directory(head: &ImageHead, d: usize) -> Found
    requires { d < head.now.shelf.index.directories }
    ensures { result ≡ found_directory head.now.shelf.bytes.now d }
{
    let told = shelf_tell::directory_response(head, d);
    Found {
        directory: d,
        current: None,
        pointer: None,
        told,
        from: 4,
        count: 22,
    }
}

// The pointer of a file just selected.
fn first_pointer(e: Entry) -> Option<usize>
    ensures { result ≡ first_pointer e }
{
    if e.structure == 3 {
        return Some(1);
    }
    None
}

// A file, in the directory where it is found.
fn found_file(head: &ImageHead, d: usize, f: usize) -> Found
    requires { f < head.now.shelf.index.files }
    ensures { result ≡ found_file head.now.shelf.bytes.now d f }
{
    let e = entries::file(head.shelf.bytes, head.shelf.index.table + 14 * f);
    let pointer = first_pointer(e);
    let told = shelf_tell::file_response(e);
    Found {
        directory: d,
        current: Some(f),
        pointer,
        told,
        from: 0,
        count: 15,
    }
}

// SELECT: a directory is sought first, and a file only where no directory was found. Only this player's crates call it, after the tests
// of the image and the session.
pub fn select(image: &[u8], s: Session, id: u16) -> Reply
    requires { Ready image.now s }
    ensures { (room : List ℕ) → Tells (select (head image.now) s id) image.now s result room room }
{
    let head = ImageHead::of(image);
    let found = if let Some(d) = shelf_find::find_directory(&head, s.directory, id) {
        found_directory(&head, d)
    } else if let Some(f) = shelf_find::find_file(&head, s.directory, id) {
        found_file(&head, s.directory, f)
    } else {
        return refusal(s, u16::from(Refused::NotFound));
    };
    let end = found.from + 22;
    selected(
        found.directory,
        found.current,
        found.pointer,
        &found.told[found.from..end],
        found.count,
        s,
    )
}

// STATUS: the first n bytes on the current directory. Only this player's crates call it, after the tests of the image and the session.
pub fn status(image: &[u8], s: Session, n: usize, room: &mut [u8]) -> Reply
    requires ready { Ready image.now s }
    requires n_bound { (n ≤ 22) × (22 ≤ length room.old) }
    ensures { Tells (tell_status (head image.now) s n) image.now s result room.old room.new }
{
    let head = ImageHead::of(image);
    let told = shelf_tell::directory_response(&head, s.directory);
    tell_status(told, s, n, room)
}
