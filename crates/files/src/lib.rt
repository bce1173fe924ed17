// Files as programs use them: what their arguments name, the parts of a name and how one is shown, a deck or a reel that is read, and a file that is written whole
// or not at all. What fails is said on standard error.
#![tactic(auto)]

mod given;
mod names;
mod output;
mod paths;
mod room;
mod shown;

pub use given::{deck, name, reel, reel_room};
pub use names::{front, put_in};
pub use output::write;
pub use room::{put, written};
pub use shown::{fail, say_name};
