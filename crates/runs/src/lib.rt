// All runs of a reader are defined in specs/ and have no code: this crate holds definitions and theorems alone.
#![tactic(auto)]
