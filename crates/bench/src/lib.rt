// The bench list's P cases are a table in specs/ and have no code.
#![tactic(auto)]
