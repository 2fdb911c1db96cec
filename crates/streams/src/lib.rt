// What is promised of a stream that is fed to the accumulator; no code.
#![tactic(auto)]
