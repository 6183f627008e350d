// Owns the bridge between texts and machine: the code of a program behaves as the program means, step for step.
// Promises nothing yet: the statements of specs/Promises.antt are not proved, and no contract names them.
#![tactic(auto)]
