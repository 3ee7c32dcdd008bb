// A list of commands in one slice, each after its two-byte count.
ghost use Rattle.std.specs.Prelude.{◌+◌, ◌<◌, ◌≤◌, ◌≡◌, length, IfSome, MatchOption};

use streams::input;

// The first command of a list and the list after it; nothing where the list is empty. A list that is cut ends where it is cut.
pub fn split_first(list: &[u8]) -> Option<(&[u8], &[u8])>
    ensures { MatchOption result (length list.now ≡ 0) (λ parts. length parts.0.now + length parts.1.now < length list.now) }
{
    if list.is_empty() {
        return None;
    }
    let Some((count, rest)) = list.split_first_chunk::<2>() else {
        return Some((&[], &[]));
    };
    let count = usize::from(u16::from_be_bytes(*count));
    Some(rest.split_at(count.min(rest.len())))
}

// Reads so many bytes to a place of the list, and tells where they end; more than it holds do not come.
fn read_to(list: &mut [u8], at: usize, n: usize) -> Option<usize>
    requires { at ≤ length list.old }
    ensures { IfSome result (λ end. (at + n ≡ end) × (end ≤ length list.old)) }
{
    input::fill(list[at..].get_mut(..n)?)?;
    Some(at + n)
}

// Reads one command to a place of the list, with its count, and tells where it ends.
fn read_one(list: &mut [u8], at: usize) -> Option<usize>
    requires { at ≤ length list.old }
    ensures { IfSome result (λ end. end ≤ length list.old) }
{
    let from = read_to(list, at, 2)?;
    let count = input::join(list[at], list[at + 1]);
    read_to(list, from, count)
}

// Reads n commands, and tells where they end.
pub fn read_all(list: &mut [u8], n: usize) -> Option<usize>
    ensures { IfSome result (λ end. end ≤ length list.old) }
{
    let mut end = 0;
    for _ in 0..n {
        end = read_one(list, end)?;
    }
    Some(end)
}
