//! The words that are names and variables.

ghost use Rattle.std.specs.Prelude.{◌≡◌};
ghost use Rattle.std.specs.List.{list_all};
ghost use Rattle.stp_text.specs.Names.{begins_name, goes_on_name, is_name, is_variable};

/// Whether a name may begin with a byte.
fn begins_name(byte: u8) -> bool
    ensures { result ≡ begins_name byte }
{
    byte.is_ascii_lowercase() || byte.is_ascii_digit() || byte == b'_'
}

/// Whether a name may go on with a byte.
fn goes_on_name(byte: u8) -> bool
    ensures { result ≡ goes_on_name byte }
{
    begins_name(byte) || byte == b'-'
}

/// Whether a name may go on with each of these bytes.
fn all_go_on(bytes: &[u8]) -> bool
    ensures { result ≡ list_all goes_on_name bytes.now }
{
    for byte in bytes {
        if !goes_on_name(*byte) {
            return false;
        }
    }
    true
}

/// Whether a folded word is a name: a letter, a digit or `_`, and then these and `-`.
pub fn is_name(text: &[u8]) -> bool
    ensures { result ≡ is_name text.now }
{
    let [first, rest @ ..] = text else {
        return false;
    };
    begins_name(*first) && all_go_on(rest)
}

/// Whether a folded word is a variable: `?` and a name.
pub fn is_variable(text: &[u8]) -> bool
    ensures { result ≡ is_variable text.now }
{
    let [first, rest @ ..] = text else {
        return false;
    };
    *first == b'?' && is_name(rest)
}
