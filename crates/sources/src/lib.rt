// Sources of forms: a trait that means a list, a second one that names its entries, and the sources that there are.
#![tactic(auto)]

pub mod entries;
pub mod fault;
pub mod front;
pub mod joined;
pub mod joined_all;
pub mod lent;
pub mod shelf;
pub mod source;
pub mod window;
