//! The words that begin a list in a condition, an effect or an expression.

ghost use Rattle.std.specs.Prelude.{◌≡◌};
ghost use Rattle.stp_condition.specs.Keys.{is_comparison, is_change, operator_of, other_key, key_of};

/// An operator of expressions.
#[derive(Clone, Copy, Debug, PartialEq, Eq)]
pub enum Operator {
    Plus,
    Minus,
    Times,
    Over,
}

/// What a list begins with.
#[derive(Clone, Copy, Debug, PartialEq, Eq)]
pub enum Key {
    Equal,
    Not,
    And,
    Or,
    Imply,
    Forall,
    Exists,
    /// `<`, `>`, `<=` or `>=`.
    Comparison,
    Preference,
    When,
    /// `increase`, `decrease`, `assign`, `scale-up` or `scale-down`.
    Change,
    Arithmetic(Operator),
    /// Any other word: that of a predicate or a function.
    Symbol,
}

/// Whether a word compares numbers.
fn is_comparison(text: &[u8]) -> bool
    ensures { result ≡ is_comparison text.now }
{
    text == b"<".as_slice()
        || text == b">".as_slice()
        || text == b"<=".as_slice()
        || text == b">=".as_slice()
}

/// Whether a word changes a number.
fn is_change(text: &[u8]) -> bool
    ensures { result ≡ is_change text.now }
{
    text == b"increase".as_slice()
        || text == b"decrease".as_slice()
        || text == b"assign".as_slice()
        || text == b"scale-up".as_slice()
        || text == b"scale-down".as_slice()
}

/// The operator that a word is.
fn operator_of(text: &[u8]) -> Option<Operator>
    ensures { result ≡ operator_of text.now }
{
    if text == b"+".as_slice() {
        Some(Operator::Plus)
    } else if text == b"-".as_slice() {
        Some(Operator::Minus)
    } else if text == b"*".as_slice() {
        Some(Operator::Times)
    } else if text == b"/".as_slice() {
        Some(Operator::Over)
    } else {
        None
    }
}

/// What a word begins that is no connective, and that is this operator.
fn other_key(text: &[u8], operator: Option<Operator>) -> Key
    ensures { result ≡ other_key text.now operator }
{
    if let Some(operator) = operator {
        return Key::Arithmetic(operator);
    }
    if is_comparison(text) {
        Key::Comparison
    } else if text == b"preference".as_slice() {
        Key::Preference
    } else if text == b"when".as_slice() {
        Key::When
    } else if is_change(text) {
        Key::Change
    } else {
        Key::Symbol
    }
}

/// What a word begins.
pub fn key_of(text: &[u8]) -> Key
    ensures { result ≡ key_of text.now }
{
    if text == b"=".as_slice() {
        Key::Equal
    } else if text == b"not".as_slice() {
        Key::Not
    } else if text == b"and".as_slice() {
        Key::And
    } else if text == b"or".as_slice() {
        Key::Or
    } else if text == b"imply".as_slice() {
        Key::Imply
    } else if text == b"forall".as_slice() {
        Key::Forall
    } else if text == b"exists".as_slice() {
        Key::Exists
    } else {
        other_key(text, operator_of(text))
    }
}
