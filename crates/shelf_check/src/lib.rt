// Tests an image of the shelf form, and whether a session fits it.
#![tactic(auto)]

mod check;
mod fit;
mod marks;
mod rules;
mod whole;

ghost use Rattle.std.specs.Prelude.{◌≡◌};
ghost use Rattle.card.specs.Shelf.{is_image};
ghost use Rattle.shelf_check.specs.Examined.{examined};

use card::{Answer, Session};
use whole::Sections;

// Section by section, once the counts and the length are an image's.
fn sound(s: &Sections) -> bool
    ensures { result ≡ is_image s.now.image.now }
{
    if !check::codes_sound(s) {
        return false;
    }
    if !check::directories_sound(s) {
        return false;
    }
    check::files_sound(s, &check::homes(s))
}

// Whether some bytes are an image, whatever bytes they are.
pub fn is_image(image: &[u8]) -> bool
    ensures { result ≡ is_image image.now }
{
    match Sections::of(image) {
        Some(s) => sound(&s),
        None => false,
    }
}

// Whether anything is in the way before a command is looked at, and then the host's answer, which the caller hands on: the bytes are no image,
// or the session does not fit it. The session is tested before the loops over the entries: they are slower where it is kept through them.
pub fn examine(image: &[u8], session: Session) -> Result<(), Answer>
    ensures { result ≡ examined image.now session }
{
    let Some(s) = Sections::of(image) else {
        return Err(Answer::NotAnImage);
    };
    let fit = fit::fits(&s, session);
    if !sound(&s) {
        return Err(Answer::NotAnImage);
    }
    if !fit {
        return Err(Answer::DoesNotFit);
    }
    Ok(())
}
