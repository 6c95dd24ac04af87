//! What is promised of whole runs, of calls and answers: laws of the definitions, which no code calls.
#![tactic(auto)]

pub mod laws;
