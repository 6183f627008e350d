// Owns the worked samples: whole texts, followed from bytes to tokens, tree, core program and trace; the first also to object and machine.
// Promises that each comes out as docs/language.md, docs/patterns.md and docs/meaning.md say.
// Does not translate or run anything: the definitions themselves are worked out.
#![tactic(auto)]

ghost use Rattle.worked.specs.Samples.{WorkedSamples};

// worked_samples states what the worked samples come to.
pub fn worked_samples()
    ensures { WorkedSamples }
{}
