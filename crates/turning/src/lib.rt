// Pricing both orders of every operator, children settled before their parent, and the marks that this gives.

#![tactic(auto)]

pub mod price;
pub mod turn;
