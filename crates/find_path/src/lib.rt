// A mob's search (01, Policy: "It judges 8, fills the permission table, which stays filled, then searches in the order above").
#![tactic(auto)]

mod find;

pub use find::find_path;
