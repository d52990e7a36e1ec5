// Laws of lists, strings and slices that every proof needs, and of which check decides. They stand in specs/; there is no code.
#![tactic(auto)]
