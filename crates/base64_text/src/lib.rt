// Base64 and the keys in it: what bytes are written as, what a text holds, keys of four bytes. Definitions and laws; no functions.
#![tactic(auto)]
