// INVALIDATE and REHABILITATE on an image: they write the current file's mark. Without a current file each answers 94 00.
#![tactic(auto)]

ghost use Rattle.card.specs.Marks.{invalidate, rehabilitate};
ghost use Rattle.acts.specs.Leaves.{Marks};
ghost use Rattle.acts.specs.Ready.{Ready};

use acts_stand::spot;
use card::{Refused, Session};
use commands::answers::{Reply, refusal};

// Where the status stands in a file's entry.
const STATUS: usize = 9;

// The mark says invalidated. Only this player's crates call it.
pub fn invalidate(image: &mut [u8], s: Session) -> Reply
    requires { Ready image.old s }
    ensures { Marks (λ r e. invalidate r e s) image.old s result image.new }
{
    let Some(f) = s.current else {
        return refusal(s, u16::from(Refused::NoFile));
    };
    let p = spot(image, s, f);
    let marked = commands_marks::invalidate(p.rights, p.entry, s);
    image[p.at + STATUS] = marked.status;
    marked.reply
}

// The mark says valid again. Only this player's crates call it. A function beside `invalidate`, as one over the command as a closure would
// need a contract on what that tells, longer than both.
pub fn rehabilitate(image: &mut [u8], s: Session) -> Reply
    requires { Ready image.old s }
    ensures { Marks (λ r e. rehabilitate r e s) image.old s result image.new }
{
    let Some(f) = s.current else {
        return refusal(s, u16::from(Refused::NoFile));
    };
    let p = spot(image, s, f);
    let cleared = commands_marks::rehabilitate(p.rights, p.entry, s);
    image[p.at + STATUS] = cleared.status;
    cleared.reply
}
