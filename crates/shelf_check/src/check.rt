// The four sections of an image, each whole and sound.
ghost use Rattle.std.specs.Prelude.{◌≡◌, ◌&&◌};
ghost use Rattle.card.specs.Layout.{index, sizes};
ghost use Rattle.card.specs.Shelf.{codes_sound, directories_sound, files_sound, bytes_sound};
ghost use Rattle.shelf_check.specs.Homes.{Homes};
ghost use Rattle.shelf_check.specs.Tallies.{tally};

use crate::whole::Sections;
use crate::{marks, rules};
use entries::{CHV1, CHV2};

// Both codes, which stand at a fixed place. Each its own way out: joined by `&` the two are tested by vector instructions, which takes
// longer.
pub fn codes_sound(s: &Sections) -> bool
    ensures { result ≡ codes_sound s.now.image.now }
{
    if !rules::code_rules(0, entries::code(s.image, CHV1)) {
        return false;
    }
    rules::code_rules(1, entries::code(s.image, CHV2))
}

// Every directory keeps its rules. One pass: the keys of those before it are marked. The pass goes on where a rule fails, since one test
// at the end takes less time than one in each round; what is marked from then on does not matter.
pub fn directories_sound(s: &Sections) -> bool
    ensures { result ≡ directories_sound s.now.image.now }
{
    let mut marks: [u32; 256] = [0; 256];
    let mut sound = true;
    for d in 0..s.index.directories {
        let e = s.directory(d);
        let met = marks::meet(&mut marks, rules::directory_key(d, e) % 8192);
        let own = rules::directory_rules(s, d, e);
        sound = sound & own & !met;
    }
    sound
}

// What a file's identifier starts with, by the number of its directory, and 256 where there is no directory: no byte is
// that, so that one comparison tells for each file what an option would take two for. `Homes` ties the table to the image: a type for it would
// have to hold the image too, as `Sections` does already.
pub fn homes(s: &Sections) -> [u16; 32]
    ensures { Homes s.now.image.now (index s.now.image.now).directories result }
{
    let mut starts: [u16; 32] = [256; 32];
    for d in 0..s.index.directories {
        starts[d] = rules::within(rules::first_byte(s, d));
    }
    starts
}

// The sum of the files' sizes, where every file keeps its rules. One pass, as over the directories.
fn each_file(s: &Sections, homes: &[u16; 32]) -> Option<usize>
    requires { Homes s.now.image.now (index s.now.image.now).directories homes.now }
    ensures { result ≡ tally s.now.image.now s.now.index.files }
{
    let mut marks: [u32; 256] = [0; 256];
    let mut sound = true;
    let mut sum = 0;
    for f in 0..s.index.files {
        let e = s.file(f);
        let met = marks::meet(&mut marks, rules::file_key(e) % 8192);
        let own = rules::file_rules(homes, e);
        sound = sound & own & !met;
        sum += usize::from(e.size);
    }
    if sound { Some(sum) } else { None }
}

// The last section, given the sum of the sizes.
fn bytes_sound(s: &Sections, sum: usize) -> bool
    requires { sum ≡ sizes s.now.image.now s.now.index.files }
    ensures { result ≡ bytes_sound s.now.image.now }
{
    let store = s.index.store;
    let count = usize::from(entries::word(s.image, store - 2));
    if sum <= 24576 {
        (count == sum) & (s.image.len() == store + sum)
    } else {
        false
    }
}

// The last two sections.
pub fn files_sound(s: &Sections, homes: &[u16; 32]) -> bool
    requires { Homes s.now.image.now (index s.now.image.now).directories homes.now }
    ensures { result ≡ (files_sound s.now.image.now && bytes_sound s.now.image.now) }
{
    match each_file(s, homes) {
        None => false,
        Some(sum) => bytes_sound(s, sum),
    }
}
