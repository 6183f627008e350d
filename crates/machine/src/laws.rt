ghost use Rattle.machine.specs.Laws.{CountingLoopCounts, NewArraysAreCleared, RunsCompose};

// runs_compose states that it makes no difference into how many runs the steps are split.
pub fn runs_compose()
    ensures { RunsCompose }
{}

// new_arrays_are_cleared states that every element of a new array is there, and is 0.
pub fn new_arrays_are_cleared()
    ensures { NewArraysAreCleared }
{}

// counting_loop_counts states what the counting loop writes, and that it finishes with its 35th step.
pub fn counting_loop_counts()
    ensures { CountingLoopCounts }
{}
