//! Job shops: active schedules by priority rules, and the tree of words for exact search.
#![tactic(auto)]

mod checks;
mod dispatch;
mod fault;
mod laws;
mod rule;
mod shop;
mod tree;

pub use checks::check;
pub use dispatch::giffler;
pub use fault::ShopFault;
pub use laws::{
    bounds_hold, full_words_are_active, letters_compete, problems_of_shops, rules_make_full_words,
    words_are_finite, words_reach_shortest,
};
pub use rule::ShopRule;
pub use shop::Shop;
pub use tree::ShopTree;
