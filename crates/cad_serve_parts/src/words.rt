// The words that the program is given.
ghost use Rattle.std.specs.Prelude.{◌≡◌, ◌≢◌, ◌≤◌, ◌<◌, [], ℕ, ◌↔◌, IsTrue, IfSome, IfNone, slice_index, codes, decimal};
ghost use Rattle.cad_serve_parts.specs.Words.{IsRun, IsGenerate};

use cad_syntax::Text;

// A folder isn't empty and doesn't begin with `-`.
fn is_folder(word: &[u8]) -> bool
    ensures { IsTrue result ↔ ((word.now ≢ []) × (slice_index word.now 0 ≢ 45)) }
{
    match word {
        [] => false,
        [first, ..] => *first != b'-',
    }
}

fn is_run_word(word: &str) -> bool
    ensures { IsTrue result ↔ (word.now ≡ codes "run") }
{
    word == "run"
}

/// Whether the words are `run` and a folder.
pub fn is_run(words: &[Text]) -> bool
    ensures { IsTrue result ↔ IsRun words.now }
{
    match words {
        [command, folder] => is_run_word(command.as_str()) && is_folder(folder.as_bytes()),
        _ => false,
    }
}

fn is_generate_word(word: &str) -> bool
    ensures { IsTrue result ↔ (word.now ≡ codes "generate") }
{
    word == "generate"
}

// How many transfers there may be.
const MOST: u64 = 100_000;

// A number that isn't too large.
fn within(n: u64) -> Option<u64>
    ensures some { IfSome result (λ m. (m ≡ n) × (m ≤ 100000)) }
    ensures none { IfNone result (100000 < n) }
{
    if n <= MOST { Some(n) } else { None }
}

// The number up to 100,000 that a text is in decimal; it begins neither with a plus nor with a zero.
fn small_number(word: &str) -> Option<u64>
    requires { (slice_index word.now 0 ≢ 43) × (slice_index word.now 0 ≢ 48) }
    ensures some { IfSome result (λ n. (word.now ≡ decimal n) × (n ≤ 100000)) }
    ensures none { IfNone result ((n : ℕ) → n ≤ 100000 → word.now ≡ decimal n → ⊥) }
{
    match word.parse::<u64>() {
        Ok(n) => within(n),
        Err(_) => None,
    }
}

fn is_zero(word: &str) -> bool
    ensures { IsTrue result ↔ (word.now ≡ codes "0") }
{
    word == "0"
}

// The number up to 100,000 that a text is in decimal, without a leading zero.
fn number_of(word: &str) -> Option<u64>
    ensures some { IfSome result (λ n. (word.now ≡ decimal n) × (n ≤ 100000)) }
    ensures none { IfNone result ((n : ℕ) → n ≤ 100000 → word.now ≡ decimal n → ⊥) }
{
    if is_zero(word) {
        return Some(0);
    }
    let [first, ..] = word.as_bytes() else {
        return None;
    };
    if *first == b'+' {
        return None;
    }
    if *first == b'0' {
        return None;
    }
    small_number(word)
}

// The number in the second word, where the first is `generate`.
fn number_behind(command: &str, count: &str) -> Option<u64>
    ensures some { IfSome result (λ n. (command.now ≡ codes "generate") × (count.now ≡ decimal n) × (n ≤ 100000)) }
    ensures none { IfNone result ((n : ℕ) → n ≤ 100000 → command.now ≡ codes "generate" → count.now ≡ decimal n → ⊥) }
{
    if is_generate_word(command) {
        return number_of(count);
    }
    None
}

/// How many transfers are asked for, where the words are `generate` and a number.
pub fn transfers_asked(words: &[Text]) -> Option<u64>
    ensures some { IfSome result (λ n. IsGenerate words.now n) }
    ensures none { IfNone result ((n : ℕ) → IsGenerate words.now n → ⊥) }
{
    match words {
        [command, count] => number_behind(command.as_str(), count.as_str()),
        _ => None,
    }
}
