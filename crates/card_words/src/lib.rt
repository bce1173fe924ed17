// What people are told of a refused deck by the numbers and the fields on its cards, in plain words on standard error: numbers outside their limits (refusal 7) in
// `limit`, and fields outside their records (9) in `outside`. How a field is named stands in `field`. What is said of lines and of their order stands in `line_words`.
#![tactic(auto)]

mod field;
mod limit;
mod outside;

pub use field::field_on_card;
pub use limit::outside_limits;
pub use outside::outside_records;
