// Parts of lent bytes.
#![tactic(auto)]

ghost use Rattle.std.specs.Prelude.{◌≡◌, ◌+◌, ◌≤◌, ◌<◌, length};
ghost use Rattle.card.specs.Bytes.{part, splice};
ghost use Rattle.card.specs.Answers.{laid};

// A byte as a number that sums and products take.
pub fn wide(b: u8) -> usize
    ensures { (result ≡ b) × (result < 256) }
{
    usize::from(b)
}

// Two bytes as such a number.
pub fn wide_word(w: u16) -> usize
    ensures { (result ≡ w) × (result < 65536) }
{
    usize::from(w)
}

// A byte as the low byte of a status word.
pub fn low(b: u8) -> u16
    ensures { (result ≡ b) × (result < 256) }
{
    u16::from(b)
}

// The first bytes of the room become n bytes of a file. Only this player's crates call it.
pub fn lay(b: &[u8], at: usize, n: usize, room: &mut [u8])
    requires { (at + n ≤ length b.now) × (n ≤ length room.old) }
    ensures { room.new ≡ laid room.old (part b.now at n) }
{
    let end = at + n;
    room[..n].copy_from_slice(&b[at..end]);
}

// The bytes from a place on become others. Only this player's crates call it.
pub fn put(b: &mut [u8], at: usize, new: &[u8])
    requires { at + length new.now ≤ length b.old }
    ensures { b.new ≡ splice b.old at (length new.now) new.now }
{
    let end = at + new.len();
    b[at..end].copy_from_slice(new);
}
