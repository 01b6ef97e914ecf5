// The word that asks for a load, and the words of its run.
ghost use Rattle.std.specs.Prelude.{◌≡◌, ◌≢◌, ◌<◌, ◌^◌, ℕ, [], ◌∷◌, IfOk, MatchOption, map, string_bytes};
ghost use Rattle.std.specs.Fmt.{decimal};
ghost use Rattle.load_setup.specs.Words.{asking_word, run_words};

use dl_kinds::numeral_value;
use std::alloc::{AllocError, Global};

// The number that the digits write without a leading zero.
fn plain_number(digits: &[u8]) -> Option<u64>
    ensures { MatchOption result ((n : ℕ) → n < 2 ^ 64 → digits.now ≢ decimal n)
        (λ n. digits.now ≡ decimal n) }
{
    if digits.len() > 1 && digits[0] == b'0' {
        return None;
    }
    numeral_value(digits)
}

// The number of the load that a word asks for.
fn asked_number(word: &[u8]) -> Option<u64>
    ensures { MatchOption result ((n : ℕ) → n < 2 ^ 64 → word.now ≢ asking_word n)
        (λ n. word.now ≡ asking_word n) }
{
    plain_number(word.strip_prefix(b"--self-load=")?)
}

/// The number of the load that the words ask for: they are the one word `--self-load=N`.
pub fn load_of(words: &[String]) -> Option<u64>
    ensures { MatchOption result
        ((n : ℕ) → n < 2 ^ 64 → map string_bytes words.now ≢ asking_word n ∷ [])
        (λ n. map string_bytes words.now ≡ asking_word n ∷ []) }
{
    match words {
        [word] => asked_number(word.as_bytes()),
        _ => None,
    }
}

/// The words of a load's run.
#[tactic(auto, unfolding(crate::specs::Words::run_words))]
pub fn load_words(alloc: Global) -> Result<Vec<String>, AllocError>
    ensures { IfOk result (λ words. map string_bytes words.items ≡ run_words) }
{
    let mut words = Vec::with_capacity(alloc, 4)?;
    words.push(String::from_str(alloc, "--split=8")?)?;
    words.push(String::from_str(alloc, "--max-connection-per-server=4")?)?;
    words.push(String::from_str(alloc, "--min-split-size=1M")?)?;
    words.push(String::from_str(alloc, "load.torrent")?)?;
    Ok(words)
}
