// The words of counting that the rules are written in: definitions and laws alone.
#![tactic(auto)]
