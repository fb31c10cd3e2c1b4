#![tactic(auto)]

// A Mainfile set as a source: its definitions.
