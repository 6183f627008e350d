ghost use Rattle.scanner.specs.Laws.{ScanningHasOneAnswer};

// scanning_has_one_answer states that every text has tokens or a fault, no two lists of tokens, no two faults, and not both.
pub fn scanning_has_one_answer()
    ensures { ScanningHasOneAnswer }
{}
