// What was found in a reel that its reader refuses, in plain words on standard error: in what a file is no reel (refusals 11 and 17) in `header`, in what a block
// breaks its rule (12 and 18) in `block`, for blocks with words in `word` and for segments in `segment`.
#![tactic(auto)]

mod block;
mod header;
mod segment;
mod word;

pub use block::{Asks, Whose, wrong_block};
pub use header::no_reel;
