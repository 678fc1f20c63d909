// Instruction forms: plain rows that may hold anything, and the descriptions and namings made of rows that pass every check.
#![tactic(auto)]

pub mod check;
pub mod codes;
pub mod description;
pub mod entry;
pub mod fault;
pub mod form;
pub mod naming;
mod operands;
mod pseudo;
pub mod row;
mod typed;
