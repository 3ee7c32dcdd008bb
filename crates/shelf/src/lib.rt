// Reads an image of the shelf form. For the index a place past the end reads as 0, so that it asks nothing of the bytes; the other readers ask
// that these are an image, or for an index of a whole head.
#![tactic(auto)]

pub mod head;
pub mod read;
