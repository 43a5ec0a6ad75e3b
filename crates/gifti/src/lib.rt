// The rules of GIFTI label files, above those of CIFTI: rows, conditions, the promise of keys. Definitions and laws; no functions.
#![tactic(auto)]
