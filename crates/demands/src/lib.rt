// No code: the theorems that a reviewer signs by, each in its plainest words over the definitions
// that the promises cite. The proofs behind them are in the crates of laws.
#![tactic(auto)]
