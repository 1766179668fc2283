// Definitions and laws of polynomials, for the check bits of a page and the parity of a frame; there is no code.
#![tactic(auto)]
