#![tactic(auto)]

// Where the first fault of a Mainfile record stands: its fields and their tests.
