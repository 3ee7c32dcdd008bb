// The rules of one entry.
ghost use Rattle.std.specs.Prelude.{◌≡◌, ◌&&◌, List, ℕ, ◌<◌, ◌+◌, ◌*◌, ◌/◌, ◌%◌, eqb, ltb};
ghost use Rattle.card.specs.Layout.{index, directory, records};
ghost use Rattle.card.specs.Shelf.{all, code_rules, below, within, records_rule};
ghost use Rattle.shelf_check.specs.Apart.{own_directory, own_file, zero_rules, structure_rules, directory_key, file_key};
ghost use Rattle.shelf_check.specs.Homes.{Homes};

use crate::whole::Sections;
use card::{Code, Directory, Entry};
use entries::records;

// A directory that starts 7F stands in one that starts 3F, and 5F in 7F.
#[tactic(auto, unfolding(card::specs::Shelf::below))]
fn below(parent: u16, child: u16) -> bool
    ensures { result ≡ below parent child }
{
    ((parent == 0x3f) & (child == 0x7f)) | ((parent == 0x7f) & (child == 0x5f))
}

// The first byte of a file that stands in a directory.
#[tactic(auto, unfolding(card::specs::Shelf::within))]
pub fn within(high: u16) -> u16
    ensures { result ≡ within high }
{
    match high {
        0x3f => 0x2f,
        0x7f => 0x6f,
        _ => 0x4f,
    }
}

// Code c: a sum of what must be 0, as in a file's entry.
pub fn code_rules(c: usize, k: Code) -> bool
    requires { c < 2 }
    ensures { result ≡ all (code_rules c k) }
{
    usize::from(k.flags) % 64 / (2 - c)
        + usize::from(k.attempts) / 4
        + usize::from(k.unblocks) / 11
        + usize::from(k.spare)
        == 0
}

// The first byte of a directory's identifier.
pub fn first_byte(s: &Sections, d: usize) -> u16
    requires { d < s.now.index.directories }
    ensures { result ≡ (directory s.now.image.now d).identifier / 256 }
{
    s.directory(d).identifier / 256
}

// Directory d, whose entry is e, but for twins.
pub fn directory_rules(s: &Sections, d: usize, e: Directory) -> bool
    requires { d < s.now.index.directories }
    ensures { result ≡ own_directory s.now.image.now d e }
{
    let common = (e.characteristics < 128) & (e.spare == 0);
    if d == 0 {
        return common & (e.identifier == 0x3f00) & (e.parent == 0);
    }
    let parent = usize::from(e.parent);
    if d <= parent {
        return false;
    }
    let up = first_byte(s, parent);
    common & below(up, e.identifier / 256)
}

// The low byte of an identifier, and above it the number of the directory in which it is told from the others.
fn key(identifier: u16, home: u8) -> usize
    ensures { result ≡ identifier % 256 + 256 * home }
{
    usize::from(identifier % 256) + 256 * usize::from(home)
}

// What tells directory d from the others.
#[tactic(auto, unfolding(crate::specs::Apart::directory_key))]
pub fn directory_key(d: usize, e: Directory) -> usize
    ensures { result ≡ directory_key d e }
{
    if d == 0 {
        7936
    } else {
        key(e.identifier, e.parent)
    }
}

// A sum of what must be 0 in every file, so that one test does for all: the number of its directory above 31, the spare byte, and the
// bits of status and access that may not be set.
fn zeros(e: Entry) -> usize
    ensures { eqb result 0 ≡ zero_rules e }
{
    let status = usize::from(e.status);
    usize::from(e.home) / 32
        + usize::from(e.spare)
        + status / 2 % 2
        + status / 8
        + usize::from(e.access2) % 16
}

// A file without a record length.
fn transparent_rules(e: Entry) -> bool
    requires { e.width ≡ 0 }
    ensures { result ≡ structure_rules e }
{
    (0 < e.size) & (usize::from(e.structure) + usize::from(e.increase) + usize::from(e.top) == 0)
}

// 1 to 254 whole records, and the top is one of them.
fn size_rule(e: Entry) -> bool
    ensures { result ≡ (records_rule e && ltb e.top (records e)) }
{
    let n = records(e);
    (n * usize::from(e.width) == usize::from(e.size)) & (n < 255) & (usize::from(e.top) < n)
}

// A file with one.
fn record_rules(e: Entry) -> bool
    requires { 0 < e.width }
    ensures { result ≡ structure_rules e }
{
    let structure = usize::from(e.structure);
    let increase = usize::from(e.increase);
    size_rule(e)
        & ((structure == 3) | ((structure == 1) & (increase + usize::from(e.top) == 0)))
        & ((increase == 0) | ((increase == 0x40) & (e.width == 3)))
}

// What a file's structure asks. Only where records have a length something is divided; all else is joined by `&`, without a branch.
fn structure_rules(e: Entry) -> bool
    ensures { result ≡ structure_rules e }
{
    if e.width == 0 {
        return transparent_rules(e);
    }
    record_rules(e)
}

// A file, whose entry is e, but for twins. The table tells what its identifier starts with; a directory that is not there has no byte
// in it.
pub fn file_rules(homes: &[u16; 32], e: Entry) -> bool
    ensures { (l : List ℕ) → Homes l (index l).directories homes.now → result ≡ own_file l e }
{
    let home = usize::from(e.home);
    let high = e.identifier / 256;
    let own = structure_rules(e);
    (high == homes[home % 32]) & (zeros(e) == 0) & own
}

// What tells a file from the others.
#[tactic(auto, unfolding(crate::specs::Apart::file_key))]
pub fn file_key(e: Entry) -> usize
    ensures { result ≡ file_key e }
{
    key(e.identifier, e.home)
}
