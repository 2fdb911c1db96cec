// What follows for the frames that we send: laws of wire's Sending, which `framer` stands on. It has no code.
#![tactic(auto)]
