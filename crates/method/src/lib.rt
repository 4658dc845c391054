// Baseline methodologies: their settings, the energies that they ask for, and the baselines that they answer.
#![tactic(auto)]

pub mod capped;
pub mod catalogue;
pub mod energies;
pub mod laws;
pub mod methodology;
pub mod numbered;
pub mod settings;
pub mod similar;
