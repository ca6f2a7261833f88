//! What a check says of a certificate.
ghost use Rattle.std.specs.Prelude.{◌≡◌, Some};
ghost use Rattle.fa_cert.specs.Verdict.{refusal_number, refusal_words, verdict_text};

use std::error::Error;
use std::fmt;

/// What is wrong with a plan, or with the pages that are to show that no plan has fewer rounds. The
/// check names the lowest number that applies.
#[derive(Clone, Copy, Debug, PartialEq, Eq)]
pub enum Refusal {
    /// Refusal 1: a page of the batch has no place.
    PageMissing,
    /// Refusal 2: a page has two places, whether the batch names it or not.
    PageTwice,
    /// Refusal 3: a page is read from a die that does not hold it, or is not in the batch.
    NotAHolder,
    /// Refusal 4: a page is read in a round before the current one, or in one that is closed.
    RoundClosed,
    /// Refusal 5: two pages are read from one die in one round.
    PlaceTwice,
    /// Refusal 6: the plan ends in another round than it claims.
    LastRound,
    /// Refusal 7: the shortage has a page that is not in the batch, or one page twice.
    ShortagePage,
    /// Refusal 8: the pages of the shortage fit into one round less.
    NotShort,
}

/// The verdict of a check.
#[derive(Clone, Copy, PartialEq, Eq)]
pub enum Verdict {
    /// The plan has so many rounds, and no plan has fewer.
    Least(u64),
    /// The certificate is refused.
    Refused(Refusal),
}

impl Refusal {
    /// The refusal's number, 1 to 8.
    pub fn number(self) -> u8
        ensures { result ≡ refusal_number self }
    {
        match self {
            Refusal::PageMissing => 1,
            Refusal::PageTwice => 2,
            Refusal::NotAHolder => 3,
            Refusal::RoundClosed => 4,
            Refusal::PlaceTwice => 5,
            Refusal::LastRound => 6,
            Refusal::ShortagePage => 7,
            Refusal::NotShort => 8,
        }
    }
}

impl fmt::Display for Refusal {
    ghost output = { λ r. Some (refusal_words r) };

    fn fmt<W: fmt::Write>(&self, f: &mut fmt::Formatter<W>) -> fmt::Result {
        f.write_str(match self {
            Refusal::PageMissing => "page missing",
            Refusal::PageTwice => "page twice",
            Refusal::NotAHolder => "not a holder",
            Refusal::RoundClosed => "round closed",
            Refusal::PlaceTwice => "place taken twice",
            Refusal::LastRound => "last round differs",
            Refusal::ShortagePage => "shortage page unknown",
            Refusal::NotShort => "not short",
        })
    }
}

impl Error for Refusal {}

impl fmt::Display for Verdict {
    ghost output = { λ v. Some (verdict_text v) };

    fn fmt<W: fmt::Write>(&self, f: &mut fmt::Formatter<W>) -> fmt::Result {
        match self {
            Verdict::Least(rounds) => write!(f, "least {rounds}"),
            Verdict::Refused(refusal) => {
                let number = refusal.number();
                write!(f, "refused {number} {refusal}")
            }
        }
    }
}
