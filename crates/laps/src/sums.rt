// Sums modulo 2^32 of what was answered and of an image.
use card::Answer;

// 7 times the host answer, 3 times the response count, and the response's bytes.
pub fn with_answer(sum: u32, answer: Answer, response: &[u8]) -> u32 {
    let first = sum.wrapping_add(u32::from(7 * u8::from(answer)));
    response
        .iter()
        .fold(first, |sum, byte| sum.wrapping_add(u32::from(*byte) + 3))
}

// (i + 1) times byte i: from the end, each byte goes into the sum with all after it, and so as often as its place says.
pub fn of_image(image: &[u8]) -> u32 {
    let mut sum = 0u32;
    let mut after = 0u32;
    for byte in image.iter().rev() {
        after = after.wrapping_add(u32::from(*byte));
        sum = sum.wrapping_add(after);
    }
    sum
}
