// What people are told of a refused deck by its lines and their order, in plain words on standard error: a line that is no card (refusal 1) in `line`, cards out of
// order (2) in `order`, what stands twice (4) in `card`, and parameters that are missing (5) in `missing`. How the card of a refusal is found and shown stands in `card`.
#![tactic(auto)]

mod card;
mod line;
mod missing;
mod order;

pub use card::{BLANK, COMMA, byte, card_at, column_of, first, parameter, show, spot, uncommented};
pub use line::no_card;
pub use missing::lacking;
pub use order::disorder;
