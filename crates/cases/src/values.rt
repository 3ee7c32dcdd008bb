// Numbers in the bytes of a value.
ghost use Rattle.std.specs.Prelude.{◌≡◌, get_or};
ghost use Rattle.cases.specs.Values.{word};

// The byte there, and 0 past the end.
pub fn byte(v: &[u8], i: usize) -> u8
    ensures { result ≡ get_or v.now i 0 }
{
    v.get(i).copied().unwrap_or(0)
}

// The number in the first four bytes.
#[tactic(auto, unfolding(crate::specs::Values::word))]
pub fn word(v: &[u8]) -> usize
    ensures { result ≡ word v.now }
{
    u32::from_be_bytes([byte(v, 0), byte(v, 1), byte(v, 2), byte(v, 3)]) as usize
}
