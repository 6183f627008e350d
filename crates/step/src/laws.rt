ghost use Rattle.step.specs.Laws.{StepsKeepSound};

// steps_keep_sound states that a step from a sound state leads to a sound state, whatever the code.
pub fn steps_keep_sound()
    ensures { StepsKeepSound }
{}
