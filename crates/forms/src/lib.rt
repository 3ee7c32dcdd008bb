// Whether a command's instruction, P1, P2 and P3 are right, and how many data bytes follow.
#![tactic(auto)]

ghost use Rattle.std.specs.Prelude.{◌≡◌, [], ◌∷◌, ◌≤◌};
ghost use Rattle.card.specs.Answers.{first};
ghost use Rattle.card.specs.Forms.{formed, sent};
ghost use Rattle.card.specs.Play.{wanted};
ghost use Rattle.card.specs.Refused.{word_in};
ghost use Rattle.shapes.specs.Means.{pairs, counts};

use card::{Instruction, Refused};
use shapes::{Count, Pair, shape_of};

fn pair_fits(k: Pair, p: u8, q: u8) -> bool
    ensures { result ≡ pairs k p q }
{
    match k {
        Pair::Both(a, b) => p == a && q == b,
        Pair::Any => true,
        Pair::Mode => matches!(q, 2..=4),
        Pair::SeekMode => p == 0 && q / 16 < 2 && q % 16 < 4,
        Pair::CodeNumber(a, b) => p == 0 && (q == a || q == b),
    }
}

#[tactic(auto, unfolding(card::specs::Answers::first))]
fn count_refused(k: Count, n: u8) -> Result<(), Refused>
    ensures { word_in result ≡ first (counts k n ∷ []) }
{
    match k {
        Count::Exactly(m) if n != m => Err(Refused::Length(m)),
        Count::UpTo(m, told) if n == 0 || m < n => Err(Refused::Length(told)),
        Count::NotZero if n == 0 => Err(Refused::Length(0)),
        _ => Ok(()),
    }
}

// The first refusal by a command's form.
#[tactic(auto, unfolding(card::specs::Answers::first, card::specs::Forms::formed))]
pub fn formed(i: Instruction, p: u8, q: u8, n: u8) -> Result<(), Refused>
    ensures { word_in result ≡ first (formed i p q n) }
{
    let shape = shape_of(i).ok_or(Refused::Instruction)?;
    if !pair_fits(shape.pair, p, q) {
        return Err(Refused::Parameters);
    }
    count_refused(shape.count, n)
}

// How many bytes follow the fifth.
#[tactic(auto, unfolding(card::specs::Forms::sent))]
pub fn sent(i: Instruction, n: u8) -> usize
    ensures { result ≡ sent i n }
{
    match shape_of(i) {
        Some(shape) if shape.sends => usize::from(n),
        _ => 0,
    }
}

// P3 0 asks for 256 bytes.
pub fn wanted(n: usize) -> usize
    ensures { (result ≡ wanted n) × ((n ≤ 256) → result ≤ 256) }
{
    if n == 0 {
        return 256;
    }
    n
}
