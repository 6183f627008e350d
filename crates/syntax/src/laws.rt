ghost use Rattle.syntax.specs.Reading.{OneReading};

// one_reading states that a list of tokens has at most one tree.
pub fn one_reading()
    ensures { OneReading }
{}
