// What SELECT and STATUS tell of a directory and of a file.
#![tactic(auto)]

ghost use Rattle.std.specs.Prelude.{◌≡◌, ◌++◌, ◌+◌, ◌*◌, ◌<◌, ◌≤◌, ◌/◌, ◌%◌, length, replicate};
ghost use Rattle.card.specs.Bytes.{bit};
ghost use Rattle.card.specs.Layout.{disabled, file};
ghost use Rattle.card.specs.Select.{b8, code_status, unblock_status, child, children, member, members, directory_type, directory_response, file_response};
ghost use Rattle.shelf.specs.Reads.{Counters};

use card::{Code, Directory, Entry};
use entries::{CHV1, CHV2};
use shelf::head::ImageHead;

// The 15 bytes on a file, and zeros after them: SELECT reads 22 of the 26 bytes, from a place that is told at run time.
pub fn file_response(e: Entry) -> [u8; 26]
    ensures { result ≡ file_response e ++ replicate 11 0 }
{
    let [size_high, size_low] = e.size.to_be_bytes();
    let [high, low] = e.identifier.to_be_bytes();
    [
        0,
        0,
        size_high,
        size_low,
        high,
        low,
        4,
        e.increase,
        e.access1,
        e.access2,
        e.access3,
        e.status,
        2,
        e.structure,
        e.width,
        0,
        0,
        0,
        0,
        0,
        0,
        0,
        0,
        0,
        0,
        0,
    ]
}

// b8 for a test that holds.
fn b8(t: bool) -> u8
    ensures { (result ≡ b8 t) × (result ≤ 128) }
{
    u8::from(t) * 0x80
}

fn code_status(k: Code) -> u8
    requires { Counters k }
    ensures { result ≡ code_status k }
{
    b8(k.flags / 128 % 2 == 1) + k.attempts
}

fn unblock_status(k: Code) -> u8
    requires { Counters k }
    ensures { result ≡ unblock_status k }
{
    b8(k.flags / 64 % 2 == 1) + k.unblocks
}

// The characteristics, with b8 set where CHV1 is disabled.
fn characteristics(k: Code, e: Directory) -> u8
    requires { e.characteristics < 128 }
    ensures { result ≡ b8 (disabled k) + e.characteristics }
{
    b8(k.flags % 2 == 1) + e.characteristics
}

#[tactic(auto, unfolding(card::specs::Select::child))]
fn child(d: usize, c: usize, e: Directory) -> bool
    ensures { result ≡ child d c e }
{
    let root = c == 0;
    !root & (usize::from(e.parent) == d)
}

#[tactic(auto, unfolding(card::specs::Select::member))]
fn member(head: &ImageHead, d: usize, f: usize) -> bool
    requires { f < head.now.shelf.index.files }
    ensures { result ≡ member d (file head.now.shelf.bytes.now f) }
{
    usize::from(head.shelf.file_home(f)) == d
}

// How many directories have d as their parent.
fn children(head: &ImageHead, d: usize) -> u8
    ensures { result ≡ children head.now.shelf.bytes.now d }
{
    let mut found = 0;
    for c in 0..head.shelf.index.directories {
        found += u8::from(child(d, c, head.directory(c)));
    }
    found
}

// How many files lie in directory d. A loop beside that over the directories, as one over a closure needs a contract longer than it.
fn members(head: &ImageHead, d: usize) -> u8
    ensures { result ≡ members head.now.shelf.bytes.now d }
{
    let mut found = 0;
    for f in 0..head.shelf.index.files {
        found += u8::from(member(head, d, f));
    }
    found
}

#[tactic(auto, unfolding(card::specs::Select::directory_type))]
fn directory_type(d: usize) -> u8
    ensures { result ≡ directory_type d }
{
    if d == 0 { 1 } else { 2 }
}

// The 22 bytes on a directory, after four zeros: SELECT reads 22 of the 26 bytes, from a place that is told at run time. Only this
// player's crates call it.
pub fn directory_response(head: &ImageHead, d: usize) -> [u8; 26]
    requires { d < head.now.shelf.index.directories }
    ensures { result ≡ replicate 4 0 ++ directory_response head.now.shelf.bytes.now d }
{
    let below = children(head, d);
    let inside = members(head, d);
    let chv1 = entries::code(head.shelf.bytes, CHV1);
    let chv2 = entries::code(head.shelf.bytes, CHV2);
    let e = head.directory(d);
    let [memory_high, memory_low] = e.memory.to_be_bytes();
    let [high, low] = e.identifier.to_be_bytes();
    [
        0,
        0,
        0,
        0,
        0,
        0,
        memory_high,
        memory_low,
        high,
        low,
        directory_type(d),
        0,
        0,
        0,
        0,
        0,
        9,
        characteristics(chv1, e),
        below,
        inside,
        e.codes,
        0,
        code_status(chv1),
        unblock_status(chv1),
        code_status(chv2),
        unblock_status(chv2),
    ]
}
