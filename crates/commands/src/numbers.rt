ghost use Rattle.commands.specs.Numbers.{number_in, word_in};
ghost use Rattle.std.specs.Prelude.{◌≡◌};

// number_in is the number that an argument writes, if it writes one from 0 to 4,294,967,295.
// It and word_in are two: one function for both types would be told the definition of what a text says.
pub(crate) fn number_in(argument: &str) -> Option<u32>
    ensures { result ≡ number_in argument.now }
{
    argument.parse::<u32>().ok()
}

// word_in is the word that an argument writes, if it writes one.
pub(crate) fn word_in(argument: &str) -> Option<i32>
    ensures { result ≡ word_in argument.now }
{
    argument.parse::<i32>().ok()
}
