// Plays as `mooringlass` does, and then tells the image: a line `image` and its bytes.
#![tactic(auto)]

fn main() {
    console::run(true);
}
