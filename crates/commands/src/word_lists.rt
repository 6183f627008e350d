ghost use Rattle.commands.specs.Words.{each_behind, listed};
ghost use Rattle.std.specs.Prelude.{Some};

use std::fmt;

// EachBehind shows each word behind a mark.
#[derive(Clone, Copy)]
pub(crate) struct EachBehind<'a> {
    pub(crate) mark: &'a str,
    pub(crate) words: &'a [i32],
}

impl fmt::Display for EachBehind<'_> {
    ghost output = { λ e. Some (each_behind e.mark.now e.words.now) };

    fn fmt<W: fmt::Write>(&self, f: &mut fmt::Formatter<W>) -> fmt::Result {
        let mark = self.mark;
        for word in self.words {
            write!(f, "{mark}{word}")?;
        }
        Ok(())
    }
}

// Listed shows words with a comma between any two.
#[derive(Clone, Copy)]
pub(crate) struct Listed<'a>(pub(crate) &'a [i32]);

impl fmt::Display for Listed<'_> {
    ghost output = { λ l. Some (listed l.0.now) };

    fn fmt<W: fmt::Write>(&self, f: &mut fmt::Formatter<W>) -> fmt::Result {
        match self.0 {
            [] => Ok(()),
            [first, words @ ..] => {
                let others = EachBehind { mark: ",", words };
                write!(f, "{first}{others}")
            }
        }
    }
}
