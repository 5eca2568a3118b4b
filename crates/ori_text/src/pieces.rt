// Pieces of texts that lines and statements have in common: links, words, and what stands around a byte.
ghost use Rattle.std.specs.Prelude.{◌≡◌, ◌≢◌, ◌||◌, ◌++◌, ◌∷◌, List, ℕ, ℤ, MatchOption};
ghost use Rattle.std.specs.List.{list_all};
ghost use Rattle.ori_bytes.specs.declared.rid.Rid.{Rid};
ghost use Rattle.ori_spec_texts.specs.Statement.{is_word, is_letter, is_digit, IsLink, IsNumeral};
ghost use Rattle.ori_spec_data.specs.Numbers.{IsSigned};
ghost use Rattle.ori_text.specs.Pieces.{IsSplitAt};

use ori_bytes::Rid;

/// Reads a link, `#<cluster>:<position>`, whose numbers may have leading zeros and are in the range of an identifier.
pub fn read_link(text: &str) -> Option<Rid>
    ensures { MatchOption result
        ((rid : Rid) → IsLink text.now rid → ⊥)
        (λ rid. IsLink text.now rid) }
{
    let (cluster, position) = split_at_colon(after(text, "#")?)?;
    let cluster = read_i16(cluster)?;
    let position = read_i64(position)?;
    Some(Rid { cluster, position })
}

/// What follows a text that stands at the front.
pub fn after<'a>(text: &'a str, front: &str) -> Option<&'a str>
    ensures { MatchOption result
        ((rest : List ℕ) → text.now ≢ front.now ++ rest)
        (λ rest. text.now ≡ front.now ++ rest.now) }
{
    text.strip_prefix(front)
}

/// What stands before the first space, and what follows it.
pub fn split_at_space(text: &str) -> Option<(&str, &str)>
    ensures { MatchOption result
        ((front rest : List ℕ) → text.now ≢ front ++ 32 ∷ rest)
        (λ parts. IsSplitAt 32 text.now parts.0.now parts.1.now) }
{
    text.split_once(' ')
}

// What stands before the first colon, and what follows it.
fn split_at_colon(text: &str) -> Option<(&str, &str)>
    ensures { MatchOption result
        ((front rest : List ℕ) → text.now ≢ front ++ 58 ∷ rest)
        (λ parts. IsSplitAt 58 text.now parts.0.now parts.1.now) }
{
    text.split_once(':')
}

// A number of 16 bits with a sign. A plus sign, which `parse` would take, is none here.
fn read_i16(text: &str) -> Option<i16>
    ensures { MatchOption result
        ((z : ℤ) → IsNumeral text.now z → IsSigned 16 z → ⊥)
        (λ z. IsNumeral text.now z × IsSigned 16 z) }
{
    if text.starts_with('+') {
        return None;
    }
    text.parse().ok()
}

// A number of 64 bits with a sign.
fn read_i64(text: &str) -> Option<i64>
    ensures { MatchOption result
        ((z : ℤ) → IsNumeral text.now z → IsSigned 64 z → ⊥)
        (λ z. IsNumeral text.now z × IsSigned 64 z) }
{
    if text.starts_with('+') {
        return None;
    }
    text.parse().ok()
}

/// Whether a text is an ASCII letter or an underscore, and then letters, underscores and digits.
pub fn is_word(text: &str) -> bool
    ensures { result ≡ is_word text.now }
{
    let Some((first, rest)) = text.as_bytes().split_first() else {
        return false;
    };
    is_letter(*first) && are_word_bytes(rest)
}

fn are_word_bytes(bytes: &[u8]) -> bool
    ensures { result ≡ list_all (λ b. is_letter b || is_digit b) bytes.now }
{
    bytes.iter().all(|b| is_word_byte(*b))
}

fn is_word_byte(byte: u8) -> bool
    ensures { result ≡ (is_letter byte || is_digit byte) }
{
    is_letter(byte) || byte.is_ascii_digit()
}

fn is_letter(byte: u8) -> bool
    ensures { result ≡ is_letter byte }
{
    byte.is_ascii_alphabetic() || byte == b'_'
}
