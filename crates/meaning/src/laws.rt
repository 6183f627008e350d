ghost use Rattle.meaning.specs.Trace.{EveryProgramHasOneTrace};

// every_program_has_one_trace states that what is known of a trace stays known, that each place has one event, and that nothing comes behind an end.
pub fn every_program_has_one_trace()
    ensures { EveryProgramHasOneTrace }
{}
