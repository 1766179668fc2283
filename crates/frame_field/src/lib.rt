// Definitions and laws of the field that a frame's symbols are of; there is no code.
#![tactic(auto)]
