// The theory of Lyndon grammars: what the definitions imply. It stands in specs/; there is no code.
#![tactic(auto)]
