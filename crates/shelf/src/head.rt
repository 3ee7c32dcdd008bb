// Bytes that are read by their index, and the head of an image.
ghost use Rattle.std.specs.Prelude.{◌≡◌, true, ◌+◌, ◌*◌, ◌<◌, ◌≤◌, length};
ghost use Rattle.card.specs.Layout.{directory, file, head};
ghost use Rattle.card.specs.Shelf.{is_image};
ghost use Rattle.shelf.specs.Reads.{Indexed, Head};

use crate::read;
use card::{Directory, Index};

// Some bytes and their index.
#[derive(Clone, Copy)]
pub struct Shelf<'a> {
    pub bytes: &'a [u8],
    pub index: Index,
    ghost indexed: { Indexed bytes.now index },
}

impl Shelf<'_> {
    // The identifier of file f alone, whose entry is all there. Only this player's crates call it.
    pub fn file_identifier(&self, f: usize) -> u16
        requires { self.now.index.table + 14 * f + 14 ≤ length self.now.bytes.now }
        ensures { result ≡ (file self.now.bytes.now f).identifier }
    {
        entries::word(self.bytes, self.index.table + 14 * f)
    }

    // The directory of file f alone, likewise. Only this player's crates call it.
    pub fn file_home(&self, f: usize) -> u8
        requires { self.now.index.table + 14 * f + 14 ≤ length self.now.bytes.now }
        ensures { result ≡ (file self.now.bytes.now f).home }
    {
        let at = self.index.table + 14 * f + 2;
        self.bytes[at]
    }
}

// The head of an image.
#[derive(Clone, Copy)]
pub struct ImageHead<'a> {
    pub shelf: Shelf<'a>,
    ghost head: { Head shelf.bytes.now shelf.index },
}

impl<'a> ImageHead<'a> {
    // All that stands before the files' bytes. Only this player's crates call it.
    pub fn of(image: &'a [u8]) -> ImageHead<'a>
        requires { is_image image.now ≡ true }
        ensures { result.shelf.bytes.now ≡ head image.now }
    {
        let index = read::image_index(image);
        let store = index.store;
        let bytes = &image[..store];
        ImageHead {
            shelf: Shelf { bytes, index },
        }
    }

    // Directory d. Only this player's crates call it.
    pub fn directory(&self, d: usize) -> Directory
        requires { d < self.now.shelf.index.directories }
        ensures { result ≡ directory self.now.shelf.bytes.now d }
    {
        entries::directory(self.shelf.bytes, self.shelf.index.tree + 8 * d)
    }
}
