// The converter of document 02, point 4: a card in another edition.
#![tactic(auto)]

pub mod convert;
pub mod records;
