// At most so many bytes, in fixed memory.
ghost use Rattle.std.specs.Prelude.{◌≡◌, ◌+◌, ◌<◌, ◌≤◌, [], ◌∷◌, ◌++◌, length};
ghost use Rattle.fields.specs.Text.{text};

use crate::text::{place, put_text};
use std::marker::Model;

// Clauses see the bytes that count. Zeros stand after them.
#[derive(Clone, Copy)]
pub struct Bytes<const N: usize> {
    bytes: [u8; N],
    count: usize,
}

impl<const N: usize> Model for Bytes<N> {
    ghost use Rattle.std.specs.Prelude.{ℕ, List, take, length};
    ghost use Rattle.fields.specs.Text.{padded};
    ghost use Rattle.fields.specs.Bytes.{Counted, bytes_back, count_back};

    ghost Value = { List ℕ };

    ghost view = { λ b. take b.count b.bytes };

    ghost invariant = { λ b. Counted N b.count b.bytes };

    ghost inverse = { λ v. record { bytes = padded 0 N v; count = length v } };

    ghost inverse_ok = { λ b h i. record {
      bytes = bytes_back N b.count b.bytes h i;
      count = count_back N b.count b.bytes h i;
    } };
}

impl<const N: usize> Bytes<N> {
    // No bytes.
    pub fn new() -> Self
        ensures { result ≡ [] }
    {
        Bytes {
            bytes: [0; N],
            count: 0,
        }
    }

    // The text of a field. It requires room for the whole field. Only this project's crates call it.
    pub fn text(field: &[u8], limit: u8) -> Self
        requires { length field.now ≤ N }
        ensures { result ≡ text limit field.now }
    {
        let mut bytes = [0; N];
        let count = put_text(field, limit, &mut bytes);
        Bytes { bytes, count }
    }

    // The bytes, of which there are at most N.
    pub fn as_slice(&self) -> &[u8]
        ensures bytes { result.now ≡ self.now }
        ensures within { length result.now ≤ N }
    {
        &self.bytes[..self.count]
    }

    // One byte more. It requires room for it.
    pub fn push(&mut self, b: u8)
        requires { length self.old < N }
        ensures { self.new ≡ self.old ++ b ∷ [] }
    {
        self.push_all(&[b]);
    }

    // These bytes after those that stand there. It requires room for them.
    pub fn push_all(&mut self, more: &[u8])
        requires { length self.old + length more.now ≤ N }
        ensures { self.new ≡ self.old ++ more.now }
    {
        place(more, 0, &mut self.bytes, self.count);
        self.count += more.len();
    }
}
