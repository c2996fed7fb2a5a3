//! The list of laws: law n, the number of a law, duals.
#![tactic(auto)]

mod counts;
mod laws;
mod letters;
mod listing;
mod parts;
mod places;
mod shapes;
mod theorems;
mod word_lists;

pub use counts::words;
pub use laws::{Laws, Numbered};
pub use theorems::{
    lists_are_this_long, longer_list_begins_with_the_list, numbers_are_one, the_list_is_one,
    trivial_laws_have_no_number,
};

#[cfg(test)]
mod tests;
