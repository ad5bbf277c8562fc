// Theorems about the book's definitions. They stand in proofs/; the crate holds no code.
#![tactic(auto)]
