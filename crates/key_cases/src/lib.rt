// The cases of keys (document 02, order 5), which the definitions compute. They take long, and no law rests on them: they stand apart from the rules, so that a wrong definition is refused sooner. No code.
#![tactic(auto)]
