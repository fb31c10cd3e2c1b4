#![tactic(auto)]

// What code knows of a delivery point says what its address says: laws, no code.
