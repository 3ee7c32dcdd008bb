// Words and entries of an image whose bytes are all there, where no byte's place is tested, and what an entry says of its records. Only this player's crates call these.
#![tactic(auto)]

ghost use Rattle.std.specs.Prelude.{◌≡◌, ◌+◌, ◌≤◌, length};
ghost use Rattle.card.specs.Bytes.{word};
ghost use Rattle.card.specs.Layout.{code_entry, directory_entry, file_entry, records};

use card::{Code, Directory, Entry};

// Where the entries of CHV1 and CHV2 stand in an image.
pub const CHV1: usize = 2;

pub const CHV2: usize = 22;

// The two bytes at a place, high byte first. Only this player's crates call it.
#[tactic(auto, unfolding(card::specs::Bytes::word))]
pub fn word(l: &[u8], at: usize) -> u16
    requires { at + 2 ≤ length l.now }
    ensures { result ≡ word l.now at }
{
    u16::from_be_bytes([l[at], l[at + 1]])
}

// The code's entry at a place, but for the two codes themselves. Only this player's crates call it.
#[tactic(auto, unfolding(card::specs::Layout::code_entry))]
pub fn code(l: &[u8], at: usize) -> Code
    requires { at + 4 ≤ length l.now }
    ensures { result ≡ code_entry l.now at }
{
    Code {
        flags: l[at],
        attempts: l[at + 1],
        unblocks: l[at + 2],
        spare: l[at + 3],
    }
}

// The directory's entry at a place. Only this player's crates call it.
#[tactic(auto, unfolding(card::specs::Layout::directory_entry))]
pub fn directory(l: &[u8], at: usize) -> Directory
    requires { at + 8 ≤ length l.now }
    ensures { result ≡ directory_entry l.now at }
{
    Directory {
        identifier: word(l, at),
        parent: l[at + 2],
        characteristics: l[at + 3],
        memory: word(l, at + 4),
        codes: l[at + 6],
        spare: l[at + 7],
    }
}

// The file's entry at a place. Only this player's crates call it.
#[tactic(auto, unfolding(card::specs::Layout::file_entry))]
pub fn file(l: &[u8], at: usize) -> Entry
    requires { at + 14 ≤ length l.now }
    ensures { result ≡ file_entry l.now at }
{
    Entry {
        identifier: word(l, at),
        home: l[at + 2],
        structure: l[at + 3],
        width: l[at + 4],
        increase: l[at + 5],
        access1: l[at + 6],
        access2: l[at + 7],
        access3: l[at + 8],
        status: l[at + 9],
        size: word(l, at + 10),
        top: l[at + 12],
        spare: l[at + 13],
    }
}

// How many records a file has; one without a record length has none.
pub fn records(e: Entry) -> usize
    ensures { result ≡ records e }
{
    if e.width == 0 {
        return 0;
    }
    usize::from(e.size) / usize::from(e.width)
}
