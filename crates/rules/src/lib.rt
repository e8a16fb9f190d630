#![tactic(auto)]

// No code: specs/ holds document 01 as definitions, proofs/ the laws on them.
