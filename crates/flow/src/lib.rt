// Theory only: the combinators of reading and their laws stand in specs/.
#![tactic(auto)]
