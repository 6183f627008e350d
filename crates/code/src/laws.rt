ghost use Rattle.code.specs.Laws.{CodeHasItsSize};

// code_has_its_size states that the code has as many bytes as the sizes of its methods add up to.
pub fn code_has_its_size()
    ensures { CodeHasItsSize }
{}
