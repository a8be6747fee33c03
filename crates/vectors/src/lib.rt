// Answers of the Rust as a table in specs/, which has no code.
#![tactic(auto)]
