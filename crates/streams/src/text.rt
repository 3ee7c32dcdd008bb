// A line of output, put together before it is written, so that it is one write.
ghost use Rattle.std.specs.Prelude.{◌≡◌, ◌≤◌, List, [], ◌∷◌, ◌++◌, length, take, Some, IsOk, OnOk, IfSome};
ghost use Rattle.std.specs.Fmt.{decimal};
ghost use Rattle.streams.specs.Texts.{hexed, two_digits};

use std::fmt::{self, Write};
use std::marker::Model;

// At most N bytes of text; a full line stays as it is, and what does not fit is left out.
#[derive(Drop)]
pub struct Line<const N: usize> {
    bytes: [u8; N],
    len: usize,
}

// A line is the text that it holds.
impl<const N: usize> Model for Line<N> {
    ghost use Rattle.std.specs.Prelude.{ℕ, ◌≤◌, List, take};

    ghost Value = { List ℕ };

    ghost view = { λ line. take line.len line.bytes };

    ghost invariant = { λ line. line.len ≤ N };
}

impl<const N: usize> Line<N> {
    pub fn new() -> Self
        ensures { result ≡ [] }
    {
        Line {
            bytes: [0; N],
            len: 0,
        }
    }

    // No text: what stood there is left out from now on, and the room stays.
    pub fn clear(&mut self)
        ensures { self.new ≡ [] }
    {
        self.len = 0;
    }

    // One byte more.
    pub fn push(&mut self, b: u8)
        ensures { self.new ≡ take N (self.old ++ b ∷ []) }
    {
        if self.len < N {
            self.bytes[self.len] = b;
            self.len += 1;
        }
    }

    // These bytes as they are.
    #[tactic(auto, using(crate::proofs::Full::take_whole, crate::proofs::Full::take_next))]
    pub fn push_all(&mut self, bytes: &[u8])
        ensures { self.new ≡ take N (self.old ++ bytes.now) }
    {
        // read for the proof alone: a line is never longer than its room
        let _ = &self.len;
        for b in bytes {
            self.push(*b);
        }
    }

    // A printed text.
    pub fn print<D: fmt::Display + Drop>(&mut self, text: D) -> fmt::Result
        ensures { OnOk result (IfSome (D.output text) (λ printed. self.new ≡ take N (self.old ++ printed))) }
    {
        // read for the proof alone: a line is never longer than its room
        let _ = &self.len;
        self.write(text)
    }

    pub fn as_slice(&self) -> &[u8]
        ensures text { result.now ≡ self.now }
        ensures fits { length result.now ≤ N }
    {
        &self.bytes[..self.len]
    }
}

impl<const N: usize> fmt::Write for Line<N> {
    ghost write_str_gives = { λ old text new. new ≡ take N (old ++ text) };

    fn write_str(&mut self, s: &str) -> fmt::Result
        ensures ok { IsOk result }
        ensures text { self.new ≡ take N (self.old ++ s.now) }
    {
        self.push_all(s.as_bytes());
        Ok(())
    }
}

// What the line of a command or a case begins with: its number, and the number of its answer.
#[derive(Clone, Copy)]
pub struct Head {
    pub number: usize,
    pub answer: u8,
}

impl fmt::Display for Head {
    ghost output = { λ head. Some (decimal head.number ++ 32 ∷ decimal head.answer) };

    fn fmt<W: fmt::Write>(&self, f: &mut fmt::Formatter<W>) -> fmt::Result {
        write!(f, "{} {}", self.number, self.answer)
    }
}

// Each byte as two digits: those of a byte stand at twice its number.
const PAIRS: &str = "\
    000102030405060708090A0B0C0D0E0F\
    101112131415161718191A1B1C1D1E1F\
    202122232425262728292A2B2C2D2E2F\
    303132333435363738393A3B3C3D3E3F\
    404142434445464748494A4B4C4D4E4F\
    505152535455565758595A5B5C5D5E5F\
    606162636465666768696A6B6C6D6E6F\
    707172737475767778797A7B7C7D7E7F\
    808182838485868788898A8B8C8D8E8F\
    909192939495969798999A9B9C9D9E9F\
    A0A1A2A3A4A5A6A7A8A9AAABACADAEAF\
    B0B1B2B3B4B5B6B7B8B9BABBBCBDBEBF\
    C0C1C2C3C4C5C6C7C8C9CACBCCCDCECF\
    D0D1D2D3D4D5D6D7D8D9DADBDCDDDEDF\
    E0E1E2E3E4E5E6E7E8E9EAEBECEDEEEF\
    F0F1F2F3F4F5F6F7F8F9FAFBFCFDFEFF";

// A byte in upper-case hexadecimal, by the table: a line has one for each byte of a response, and `{:02X}` takes several times as long.
fn pair(byte: u8) -> &'static str
    ensures { result.now ≡ two_digits byte }
{
    let at = 2 * usize::from(byte);
    &PAIRS[at..at + 2]
}

// Bytes that are printed in upper-case hexadecimal, `-` where there are none.
#[derive(Clone, Copy)]
pub struct Hex<'a>(pub &'a [u8]);

impl fmt::Display for Hex<'_> {
    ghost output = { λ hex. Some (hexed hex.0.now) };

    fn fmt<W: fmt::Write>(&self, f: &mut fmt::Formatter<W>) -> fmt::Result {
        let bytes = self.0;
        if bytes.is_empty() {
            return f.write_str("-");
        }
        for byte in bytes {
            f.write_str(pair(*byte))?;
        }
        Ok(())
    }
}
