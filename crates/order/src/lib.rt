// The order of models does not matter: definitions and theorems alone.
#![tactic(auto)]
