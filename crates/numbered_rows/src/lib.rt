// The rows of both formats as one table of numbers and letters, and that it is the papers': definitions and theorems alone.
#![tactic(auto)]
