// An image of which every section but the last is all there.
ghost use Rattle.std.specs.Prelude.{◌≡◌, false, ◌<◌, MatchOption};
ghost use Rattle.card.specs.Layout.{directory, file};
ghost use Rattle.card.specs.Shelf.{is_image};
ghost use Rattle.shelf_check.specs.Whole.{Whole};

use card::{Directory, Entry, Index};
use shelf::read;

// Some bytes and their index. The counts are an image's, and every section but the last is all there: no entry's place is tested again.
// A type beside `shelf::head`'s: that says of a tested image what is only found here.
#[derive(Clone, Copy)]
pub struct Sections<'a> {
    pub image: &'a [u8],
    pub index: Index,
    ghost whole: { Whole image.now index },
}

impl<'a> Sections<'a> {
    // None where the counts or the length are no image's.
    pub fn of(image: &'a [u8]) -> Option<Sections<'a>>
        ensures { MatchOption result (false ≡ is_image image.now) (λ s. s.image.now ≡ image.now) }
    {
        let index = read::index(image);
        let whole = (index.codes == 2)
            & (0 < index.directories)
            & (index.directories <= 32)
            & (index.files <= 200)
            & (index.store <= image.len());
        if whole {
            Some(Sections { image, index })
        } else {
            None
        }
    }

    // Directory d.
    pub fn directory(&self, d: usize) -> Directory
        requires { d < self.now.index.directories }
        ensures { result ≡ directory self.now.image.now d }
    {
        entries::directory(self.image, self.index.tree + 8 * d)
    }

    // File f.
    pub fn file(&self, f: usize) -> Entry
        requires { f < self.now.index.files }
        ensures { result ≡ file self.now.image.now f }
    {
        entries::file(self.image, self.index.table + 14 * f)
    }
}
