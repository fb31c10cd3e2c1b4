#![tactic(auto)]

// That a rewritten pair of files is to the reader what the pair was to the old one: definitions and laws.
