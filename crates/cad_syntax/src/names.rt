// Which texts are names.
ghost use Rattle.std.specs.Prelude.{◌≡◌, ◌==◌};
ghost use Rattle.std.specs.Cmp.Lexicographic.{pointwise};
ghost use Rattle.std.specs.List.{list_all, list_any};
ghost use Rattle.cad_syntax.specs.Names as spec;

/// The words of the language, which are no names.
const KEYWORDS: [&str; 37] = [
    "access",
    "as",
    "auth",
    "break",
    "case",
    "continue",
    "contract",
    "create",
    "default",
    "destroy",
    "else",
    "emit",
    "enum",
    "event",
    "execute",
    "false",
    "for",
    "fun",
    "if",
    "import",
    "in",
    "init",
    "interface",
    "let",
    "nil",
    "post",
    "pre",
    "prepare",
    "resource",
    "return",
    "self",
    "struct",
    "switch",
    "transaction",
    "true",
    "var",
    "while",
];

/// Whether a text is a name: an ASCII letter or `_`, then ASCII letters, digits and `_`, and no keyword.
pub fn is_name(text: &str) -> bool
    ensures { result ≡ spec.is_name_text text.now }
{
    is_word(text.as_bytes()) && !is_keyword(text)
}

fn is_word(bytes: &[u8]) -> bool
    ensures { result ≡ spec.is_word bytes.now }
{
    match bytes.split_first() {
        Some((first, rest)) => (first.is_ascii_alphabetic() || *first == b'_') && are_parts(rest),
        None => false,
    }
}

/// Whether all bytes are ASCII letters, digits or `_`.
fn are_parts(bytes: &[u8]) -> bool
    ensures { result ≡ list_all spec.is_part_of_name bytes.now }
{
    bytes
        .iter()
        .all(|b| b.is_ascii_alphanumeric() || *b == b'_')
}

/// Whether a text is one of these words.
fn is_among(words: &[&str], text: &str) -> bool
    ensures { result ≡ list_any (λ word. pointwise ◌==◌ word.now text.now) words.now }
{
    words.iter().any(|word| *word == text)
}

#[tactic(auto, unfolding(crate::specs::Names::is_keyword))]
fn is_keyword(text: &str) -> bool
    ensures { result ≡ spec.is_keyword text.now }
{
    is_among(&KEYWORDS, text)
}
