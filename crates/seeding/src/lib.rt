//! Seeding: a session learns the leaves of the files that a shelf holds.
#![tactic(auto)]

mod finding;
mod job;
mod leaves;
mod seeding;

pub use lines::OutFault as SeedFault;
pub use seeding::{seed, seed_onto};
