// Owns names and types: which trees are legal, and the core program that a legal one stands for.
// Promises nothing yet: the resolver comes with a later delivery.
// Does not read text or write code.
//
// specs/Scopes.antt: what names stand for. specs/Typing.antt: types, and the core of each form. specs/Items.antt: the names of an item, its limits and refusals. specs/Resolving.antt: whole programs.
#![tactic(auto)]
