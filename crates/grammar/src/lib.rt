// Documents, the grammar that writes them, and the parser that decides it: definitions and theorems alone.
#![tactic(auto)]
