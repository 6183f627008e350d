ghost use Rattle.words.specs.Laws.{DecimalTextIsTheNumeral, OneByteIsReplaced};

// decimal_text_is_the_numeral states that the decimal text of a word is digits with no leading zero that are worth it.
pub fn decimal_text_is_the_numeral()
    ensures { DecimalTextIsTheNumeral }
{}

// one_byte_is_replaced states that a replaced byte reads back, and that the other three stay.
pub fn one_byte_is_replaced()
    ensures { OneByteIsReplaced }
{}
