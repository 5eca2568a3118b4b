// Statements, read by their hand forms: keywords in capitals, one space between tokens, and nothing else around them.
ghost use Rattle.std.specs.Prelude.{◌≡◌, ◌≢◌, ◌++◌, ◌∷◌, [], ◌<◌, ◌^◌, List, ℕ, pos, map, IsTrue, MatchOption, codes};
ghost use Rattle.std.specs.List.{list_any, list_all};
ghost use Rattle.std.specs.Str.{bytes_eq};
ghost use Rattle.std.specs.Char.{to_ascii_lowercase};
ghost use Rattle.ori_bytes.specs.declared.rid.Rid.{Rid};
ghost use Rattle.ori_spec_data.specs.Value.{Tree};
ghost use Rattle.ori_spec_texts.specs.Statement.{StatementData, is_digit, is_keyword, is_reserved, is_field_name};
ghost use Rattle.ori_spec_texts.specs.Statement.{is_plain, IsDigits, IsLink, IsLiteral, IsSetting, IsStatement};
ghost use Rattle.ori_session.specs.Statements.{literal_of, statement_of};

use ori_bytes::Rid;
use ori_bytes::limits::MAX_NAME_BYTES;
use ori_text::{after, is_word, read_link, split_at_space};

/// A value as a statement writes it.
#[derive(Clone, Copy, Drop)]
pub enum Literal<'a> {
    /// Text in single quotes, without a quote or a backslash.
    Quoted(&'a str),
    /// Decimal digits with a value below 2^31.
    Small(i32),
    /// Decimal digits with a greater value, below 2^63.
    Large(i64),
    /// A link.
    Link(Rid),
}

/// A statement, as far as statements can be written so far.
#[derive(Clone, Copy, Drop)]
pub enum Statement<'a> {
    /// `INSERT INTO V SET <name> = <value>`.
    Insert {
        name: &'a str,
        value: Literal<'a>,
    },
    /// `SELECT FROM <link>`.
    Select {
        rid: Rid,
    },
    /// `UPDATE <link> SET <name> = <value>`.
    Update {
        rid: Rid,
        name: &'a str,
        value: Literal<'a>,
    },
    /// `DELETE VERTEX <link>`.
    DeleteVertex {
        rid: Rid,
    },
    /// `BEGIN`.
    Begin,
    /// `COMMIT`.
    Commit,
    /// `ROLLBACK`.
    Rollback,
}

/// The words that are no names, in any case of their letters.
const KEYWORDS: [&str; 45] = [
    "SELECT",
    "FROM",
    "WHERE",
    "ORDER",
    "BY",
    "ASC",
    "DESC",
    "SKIP",
    "LIMIT",
    "INSERT",
    "INTO",
    "SET",
    "UPDATE",
    "REMOVE",
    "DELETE",
    "CREATE",
    "VERTEX",
    "EDGE",
    "TO",
    "CLASS",
    "EXTENDS",
    "PROPERTY",
    "INDEX",
    "ON",
    "UNIQUE",
    "NOTUNIQUE",
    "TRAVERSE",
    "MAXDEPTH",
    "WHILE",
    "STRATEGY",
    "DEPTH_FIRST",
    "BREADTH_FIRST",
    "BEGIN",
    "COMMIT",
    "ROLLBACK",
    "AND",
    "OR",
    "NOT",
    "IS",
    "NULL",
    "TRUE",
    "FALSE",
    "BETWEEN",
    "CONTAINS",
    "AS",
];

/// Reads a statement by its hand forms, or `None` where the text has none of them.
pub fn read_statement(text: &str) -> Option<Statement<'_>>
    ensures { MatchOption result
        ((s : StatementData) → IsStatement text.now s → ⊥)
        (λ s. IsStatement text.now (statement_of s)) }
{
    if let Some((name, value)) = read_insert(text) {
        return Some(Statement::Insert { name, value });
    }
    if let Some((rid, name, value)) = read_update(text) {
        return Some(Statement::Update { rid, name, value });
    }
    if let Some(rid) = read_select(text) {
        return Some(Statement::Select { rid });
    }
    if let Some(rid) = read_delete(text) {
        return Some(Statement::DeleteVertex { rid });
    }
    read_word(text)
}

// A statement of one word.
fn read_word(text: &str) -> Option<Statement<'_>>
    ensures { MatchOption result
        ((text.now ≢ codes "BEGIN") × (text.now ≢ codes "COMMIT") × (text.now ≢ codes "ROLLBACK"))
        (λ s. IsStatement text.now (statement_of s)) }
{
    if text == "BEGIN" {
        return Some(Statement::Begin);
    }
    if text == "COMMIT" {
        return Some(Statement::Commit);
    }
    if text == "ROLLBACK" {
        return Some(Statement::Rollback);
    }
    None
}

// The name and the value of an INSERT.
fn read_insert(text: &str) -> Option<(&str, Literal<'_>)>
    ensures { MatchOption result
        ((name : List ℕ) (value : Tree) (setting : List ℕ) → IsSetting setting name value
        → text.now ≢ codes "INSERT INTO V SET " ++ setting)
        (λ s. (setting : List ℕ) × IsSetting setting s.0.now (literal_of s.1)
        × (text.now ≡ codes "INSERT INTO V SET " ++ setting)) }
{
    read_setting(after(text, "INSERT INTO V SET ")?)
}

// The identifier, the name and the value of an UPDATE.
fn read_update(text: &str) -> Option<(Rid, &str, Literal<'_>)>
    ensures { MatchOption result
        ((rid : Rid) (name : List ℕ) (value : Tree) (link_text setting : List ℕ) → IsLink link_text rid
        → IsSetting setting name value → text.now ≢ codes "UPDATE " ++ link_text ++ codes " SET " ++ setting)
        (λ u. (link_text : List ℕ) × (setting : List ℕ) × IsLink link_text u.0
        × IsSetting setting u.1.now (literal_of u.2)
        × (text.now ≡ codes "UPDATE " ++ link_text ++ codes " SET " ++ setting)) }
{
    let (link, rest) = split_at_space(after(text, "UPDATE ")?)?;
    let rid = read_link(link)?;
    let (name, value) = read_setting(after(rest, "SET ")?)?;
    Some((rid, name, value))
}

// The identifier that a SELECT names.
fn read_select(text: &str) -> Option<Rid>
    ensures { MatchOption result
        ((rid : Rid) (link_text : List ℕ) → IsLink link_text rid → text.now ≢ codes "SELECT FROM " ++ link_text)
        (λ rid. (link_text : List ℕ) × IsLink link_text rid × (text.now ≡ codes "SELECT FROM " ++ link_text)) }
{
    read_link(after(text, "SELECT FROM ")?)
}

// The identifier that a DELETE names.
fn read_delete(text: &str) -> Option<Rid>
    ensures { MatchOption result
        ((rid : Rid) (link_text : List ℕ) → IsLink link_text rid → text.now ≢ codes "DELETE VERTEX " ++ link_text)
        (λ rid. (link_text : List ℕ) × IsLink link_text rid × (text.now ≡ codes "DELETE VERTEX " ++ link_text)) }
{
    read_link(after(text, "DELETE VERTEX ")?)
}

// A name and the value that it is set to.
fn read_setting(text: &str) -> Option<(&str, Literal<'_>)>
    ensures { MatchOption result
        ((name : List ℕ) (value : Tree) → IsSetting text.now name value → ⊥)
        (λ s. IsSetting text.now s.0.now (literal_of s.1)) }
{
    let (name, rest) = split_at_space(text)?;
    if !is_field_name(name) {
        return None;
    }
    let value = read_literal(after(rest, "= ")?)?;
    Some((name, value))
}

// A value: text in single quotes, a link, or digits.
fn read_literal(text: &str) -> Option<Literal<'_>>
    ensures { MatchOption result
        ((value : Tree) → IsLiteral text.now value → ⊥)
        (λ l. IsLiteral text.now (literal_of l)) }
{
    if let Some(inner) = read_quoted(text) {
        return Some(Literal::Quoted(inner));
    }
    if let Some(rid) = read_link(text) {
        return Some(Literal::Link(rid));
    }
    let number = read_digits(text)?;
    match i32::try_from(number) {
        Ok(small) => Some(Literal::Small(small)),
        Err(_) => Some(Literal::Large(number)),
    }
}

// The text between single quotes.
fn read_quoted(text: &str) -> Option<&str>
    ensures { MatchOption result
        ((s : List ℕ) → IsTrue (is_plain s) → text.now ≢ 39 ∷ s ++ 39 ∷ [])
        (λ s. IsTrue (is_plain s.now) × (text.now ≡ 39 ∷ s.now ++ 39 ∷ [])) }
{
    let inner = before_quote(after(text, "'")?)?;
    if !is_plain(inner) {
        return None;
    }
    Some(inner)
}

// What stands before a quote at the end.
fn before_quote(text: &str) -> Option<&str>
    ensures { MatchOption result
        ((front : List ℕ) → text.now ≢ front ++ 39 ∷ [])
        (λ front. text.now ≡ front.now ++ 39 ∷ []) }
{
    text.strip_suffix('\'')
}

// The value of decimal digits, which is below 2^63.
fn read_digits(text: &str) -> Option<i64>
    ensures { MatchOption result
        ((n : ℕ) → IsDigits text.now n → n < 2 ^ 63 → ⊥)
        (λ z. (n : ℕ) × IsDigits text.now n × (n < 2 ^ 63) × (z ≡ pos n)) }
{
    if !are_digits(text) {
        return None;
    }
    text.parse().ok()
}

// Whether each byte of a text is a decimal digit.
fn are_digits(text: &str) -> bool
    ensures { result ≡ list_all is_digit text.now }
{
    text.as_bytes().iter().all(|b| is_digit_byte(*b))
}

fn is_digit_byte(byte: u8) -> bool
    ensures { result ≡ is_digit byte }
{
    byte.is_ascii_digit()
}

// Whether a name may be that of a field in a statement.
fn is_field_name(name: &str) -> bool
    ensures { result ≡ is_field_name name.now }
{
    is_word(name) && name.len() <= MAX_NAME_BYTES && !is_keyword(name) && !is_reserved(name)
}

// Whether a name is a keyword, in any case of its letters.
fn is_keyword(name: &str) -> bool
    ensures { result ≡ is_keyword name.now }
{
    is_one_of(name, &KEYWORDS)
}

// Whether a name is one of some words in any case of its letters.
fn is_one_of(name: &str, words: &[&str]) -> bool
    ensures { result ≡ list_any
        (λ word. bytes_eq (map to_ascii_lowercase word.now) (map to_ascii_lowercase name.now)) words.now }
{
    words.iter().any(|word| is_in_any_case(name, word))
}

// Whether a name is that word in any case of its letters.
fn is_in_any_case(name: &str, word: &str) -> bool
    ensures { result ≡ bytes_eq (map to_ascii_lowercase word.now) (map to_ascii_lowercase name.now) }
{
    word.eq_ignore_ascii_case(name)
}

// Whether a name is one that records keep for edges and bags.
fn is_reserved(name: &str) -> bool
    ensures { result ≡ is_reserved name.now }
{
    name == "out" || name == "in" || name.starts_with("out_") || name.starts_with("in_")
}

// Whether a text has neither a quote nor a backslash.
fn is_plain(text: &str) -> bool
    ensures { result ≡ is_plain text.now }
{
    text.as_bytes().iter().all(|b| *b != b'\'' && *b != b'\\')
}
