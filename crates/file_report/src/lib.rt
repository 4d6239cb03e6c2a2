// What the program writes of files beside tables: lists of an element's moves (#101), and tables in text (#103).
#![tactic(auto)]

pub mod listing;
pub mod texts;
