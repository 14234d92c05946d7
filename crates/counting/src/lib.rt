#![tactic(auto)]

// Sums, counts and searches over the numbers below a bound: definitions and laws only.
