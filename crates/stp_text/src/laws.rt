//! What is true of the reading of texts, whatever code reads them.

ghost use Rattle.std.specs.Prelude.{◌≡◌, ℕ, ◌≤◌, List, length};
ghost use Rattle.stp_text.specs.Tree.{Tree, nodes};
ghost use Rattle.stp_text.specs.Reading.{tree_of};
ghost use Rattle.stp_text.specs.Runs.{WordsAreLongestRuns};
ghost use Rattle.stp_text.specs.Laws.{Spelled, TreeGivesLeast, TokensGiveLeast};

/// A text is read as a tree exactly where it spells that tree.
pub fn reads_what_is_spelled()
    ensures spelled { (bytes : List ℕ) (t : Tree) → tree_of bytes ≡ Ok t → Spelled bytes t }
    ensures read { (bytes : List ℕ) (t : Tree) → Spelled bytes t → tree_of bytes ≡ Ok t }
{}

/// Each word and each list of a tree takes a byte of its text.
pub fn reads_no_more_than_bytes()
    ensures { (bytes : List ℕ) (t : Tree) → tree_of bytes ≡ Ok t → nodes t ≤ length bytes }
{}

/// Of the table's offences the one of the least place is given.
pub fn gives_the_least_offence()
    ensures tree { TreeGivesLeast }
    ensures tokens { TokensGiveLeast }
{}

/// A text without comments, of white bytes, parentheses and words that are longest runs, has these parentheses and words
/// at their places, and no others.
pub fn words_are_longest_runs()
    ensures { WordsAreLongestRuns }
{}
