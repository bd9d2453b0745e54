// Gates of a turned expression with their places, and the labels that the places hold.

#![tactic(auto)]

pub mod label;
pub mod label_store;
pub mod lay;
