// The starred cases of section 7, and four tables beside them, the second of rows keyed at the secondary side, the last two of rows on curves,
// calculated and replaced, on the definitions that the contracts cite: a theorem each, and no code [01 §7], [02 §1, §3].
#![tactic(auto)]
