// Marks for keys below 8192, each a bit of 256 words.
ghost use Rattle.std.specs.Prelude.{◌≡◌, ◌<◌};
ghost use Rattle.shelf_check.specs.Marks.{marked, Adds};

// Whether a key was marked; from now on it is.
pub fn meet(marks: &mut [u32; 256], key: usize) -> bool
    requires { key < 8192 }
    ensures value { result ≡ marked marks.old key }
    ensures adds { Adds marks.old key marks.new }
{
    let at = key / 32;
    let n = (key % 32) as u32;
    let word = marks[at];
    marks[at] = word | (1 << n);
    (word >> n) % 2 == 1
}
