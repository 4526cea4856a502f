// The words that the call knows. A number is compared with the text that it prints, so that it has one spelling.
ghost use Rattle.std.specs.Prelude.{◌≡◌, ◌↔◌, ℕ, List, map, Some, string_bytes};
ghost use Rattle.rowrun.specs.Words.{IsGen, count_in, is_run, rows_asked};

/// The most rows that are generated.
const MOST_ROWS: usize = 1_000_000;

/// Whether the words are the one word `run`.
pub(crate) fn is_run(words: &[String]) -> bool
    ensures { result ≡ is_run (map string_bytes words.now) }
{
    if words.len() != 1 {
        return false;
    }
    words[0].as_str() == "run"
}

/// The number that a word spells in decimal, without sign and without leading zero, where it is at most 1,000,000.
fn count_in(word: &str) -> Option<usize>
    ensures { result ≡ count_in word.now }
{
    let Ok(count) = word.parse::<usize>() else {
        return None;
    };
    if count <= MOST_ROWS && itoa::Buffer::new().format(count) == word {
        Some(count)
    } else {
        None
    }
}

/// The number of rows that the words ask to generate: `gen`, and a number of at most 1,000,000.
pub(crate) fn rows_asked(words: &[String]) -> Option<usize>
    ensures { result ≡ rows_asked (map string_bytes words.now) }
{
    if words.len() != 2 {
        return None;
    }
    if words[0].as_str() != "gen" {
        return None;
    }
    count_in(words[1].as_str())
}
