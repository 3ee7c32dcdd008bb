// What is read from standard input, and no byte more.
ghost use Rattle.std.specs.Prelude.{◌+◌, ◌*◌, ◌<◌, ◌≤◌, ◌≡◌, IfSome, length};

// Standard input.
const STDIN: i32 = 0;

// Fills the slice; nothing where the input ends before.
pub fn fill(to: &mut [u8]) -> Option<()> {
    (io::read_full(STDIN, to) == to.len()).then_some(())
}

// Two bytes, high byte first.
pub fn join(high: u8, low: u8) -> usize
    ensures { (result ≡ 256 * high + low) × (result < 65536) }
{
    usize::from(u16::from_be_bytes([high, low]))
}

// A two-byte count; nothing where the input ends before it.
pub fn read_count() -> Option<usize>
    ensures { IfSome result (λ count. count < 65536) }
{
    let mut two = [0u8; 2];
    fill(&mut two)?;
    Some(join(two[0], two[1]))
}

// Reads a count and so many bytes, and lends the part of the space that they fill; nothing where the input ends before them. Only this
// project's programs call it. The space is a slice and no array: else the edit `short_file_buffer` (`coder`), which lends a shorter
// one, would be refused by a type and not by what is asked here.
pub fn read_counted(space: &mut [u8]) -> Option<&mut [u8]>
    requires { 65536 ≤ length space.old }
    ensures { IfSome result (λ part. length part.now < 65536) }
{
    let count = read_count()?;
    let part = &mut space[..count];
    fill(part)?;
    Some(part)
}
