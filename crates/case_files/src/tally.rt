ghost use Rattle.case_files.specs.Tallies.{compared, differs, is_as_expected, is_compared, is_left_out, tally_text};
ghost use Rattle.std.specs.Prelude.{◌≡◌, ◌+◌, ◌^◌, ◌<◌, length, count_by, Some};

use std::fmt;

// Finding is what came of one case.
#[derive(Drop)]
pub enum Finding {
    AsExpected,
    // Differs holds what was found.
    Differs(String),
    LeftOut,
}

// compared tells whether what was found is what is expected.
pub fn compared(found: String, expected: &str) -> Finding
    ensures { result ≡ compared found expected.now }
{
    if found.as_str() == expected {
        Finding::AsExpected
    } else {
        Finding::Differs(found)
    }
}

// compared_in is how many cases were compared.
fn compared_in(findings: &[Finding]) -> usize
    ensures { result ≡ count_by is_compared findings.now }
{
    findings
        .iter()
        .filter(|finding| !matches!(finding, Finding::LeftOut))
        .count()
}

// fit_in is how many cases came out as expected.
fn fit_in(findings: &[Finding]) -> usize
    ensures { result ≡ count_by is_as_expected findings.now }
{
    findings
        .iter()
        .filter(|finding| matches!(finding, Finding::AsExpected))
        .count()
}

// Tally is how many cases were compared, and how many of them came out as expected.
#[derive(Clone, Copy)]
pub struct Tally {
    pub cases: usize,
    pub fit: usize,
}

impl Tally {
    // of counts findings: a case that was left out was not compared.
    #[tactic(auto, using(crate::proofs::Counts::fit_or_differs, crate::proofs::Counts::compared_or_left_out))]
    pub fn of(findings: &[Finding]) -> Tally
        ensures cases { result.cases ≡ count_by is_compared findings.now }
        ensures fit { result.fit ≡ count_by is_as_expected findings.now }
        ensures differing { result.fit + count_by differs findings.now ≡ result.cases }
        ensures left_out { result.cases + count_by is_left_out findings.now ≡ length findings.now }
    {
        Tally {
            cases: compared_in(findings),
            fit: fit_in(findings),
        }
    }

    // and is the tally of the findings of both.
    pub(crate) fn and(self, other: Tally) -> Tally
        ensures cases { self.cases + other.cases < 2 ^ 64 → result.cases ≡ self.cases + other.cases }
        ensures fit { self.fit + other.fit < 2 ^ 64 → result.fit ≡ self.fit + other.fit }
    {
        Tally {
            cases: self.cases.saturating_add(other.cases),
            fit: self.fit.saturating_add(other.fit),
        }
    }
}

impl fmt::Display for Tally {
    ghost output = { λ t. Some (tally_text t) };

    fn fmt<W: fmt::Write>(&self, f: &mut fmt::Formatter<W>) -> fmt::Result {
        let Tally { cases, fit } = self;
        write!(f, "{cases} cases, {fit} as expected")
    }
}
