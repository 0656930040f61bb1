// Laws about lists and numbers that the kit lacks. Mathematics only: no code.
#![tactic(auto)]
