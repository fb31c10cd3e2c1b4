#![tactic(auto)]

// What code knows of an address record of an accepted set says what the record's address says: laws.
