// What the playing program writes: a line a command.
use card::Answer;
use streams::text::{Head, Hex};
use streams::{print, write};

// A command's line: its number, the host's answer and the response.
pub fn report(number: usize, answer: Answer, response: &[u8]) {
    let answer = u8::from(answer);
    let head = Head { number, answer };
    print::<600, _>(format_args!("{head} {}\n", Hex(response)));
}

// The image, on a line of its own.
pub fn tell_image(image: &[u8]) {
    write(b"image ");
    if image.is_empty() {
        write(b"-");
    }
    for piece in image.chunks(256) {
        print::<512, _>(Hex(piece));
    }
    write(b"\n");
}
