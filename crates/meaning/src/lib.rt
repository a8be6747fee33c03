// What an input means is defined in specs/ and has no code: this crate holds definitions and theorems alone.
#![tactic(auto)]
