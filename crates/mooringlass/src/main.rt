// Plays commands on an image: standard input holds a two-byte count and the image, the number of commands, and each command after its
// count. One line a command.
#![tactic(auto)]

fn main() {
    console::run(false);
}
