//! Laws of the definitions by which the contracts speak of fractions. Nothing here runs.

ghost use Rattle.stp_frac.specs.Laws.{ThereAreLowestTerms, LowestTermsAreUnique, LowestTermsAreLeast, ThereAreLeastMultiples, CountsAreExact, CountsComeBack, CountsKeepOrder, SpellingsAreFound, FoundSpellingsAreTheTexts, PrintedNumbersAreReadAgain};

/// Each fraction has lowest terms, and only one pair of them, the least.
pub fn lowest_terms()
    ensures exist { ThereAreLowestTerms }
    ensures unique { LowestTermsAreUnique }
    ensures least { LowestTermsAreLeast }
{}

/// The least common multiple of two numbers is one of both, and divides each other.
pub fn least_multiples()
    ensures { ThereAreLeastMultiples }
{}

/// Counts on a grid are exact, come back, and keep the order.
pub fn counts()
    ensures exact { CountsAreExact }
    ensures back { CountsComeBack }
    ensures order { CountsKeepOrder }
{}

/// A text has a spelling exactly where it is the bytes of one.
pub fn spellings()
    ensures found { SpellingsAreFound }
    ensures same { FoundSpellingsAreTheTexts }
{}

/// A printed number that keeps the limits of digits is read again.
pub fn reading_after_printing()
    ensures { PrintedNumbersAreReadAgain }
{}
