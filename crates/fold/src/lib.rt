// The first number that passes a test, and sums, maxima and "for every" over the numbers below n: definitions and laws.
#![tactic(auto)]
