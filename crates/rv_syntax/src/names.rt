//! Names, and tables of them.
ghost use Rattle.std.specs.Prelude.{◌≡◌};
ghost use Rattle.std.specs.List.{list_all};
ghost use Rattle.rv_syntax.specs.Names.{rows, lookup, is_name_start, is_name_byte, is_name};

/// A name, and what it stands for.
pub type Named<'a, T> = (&'a [u8], T);

/// A label, and its address, if it has one.
pub type Label<'a> = Named<'a, Option<u64>>;

/// The meaning of a name: that of the table's first row which has it.
pub fn lookup<T: Copy>(table: &[Named<'_, T>], name: &[u8]) -> Option<T>
    ensures { result ≡ lookup (rows table.now) name.now }
{
    for (word, meaning) in table {
        if name == *word {
            return Some(*meaning);
        }
    }
    None
}

// Whether a name may begin with this byte.
fn is_name_start(b: u8) -> bool
    ensures { result ≡ is_name_start b }
{
    b.is_ascii_alphabetic() || b == b'_'
}

// Whether a name may go on with this byte.
fn is_name_byte(b: u8) -> bool
    ensures { result ≡ is_name_byte b }
{
    b.is_ascii_alphanumeric() || b == b'_'
}

// Whether a name may go on with these bytes.
fn are_name_bytes(text: &[u8]) -> bool
    ensures { result ≡ list_all is_name_byte text.now }
{
    text.iter().all(|b| is_name_byte(*b))
}

/// Whether a text may be a label: a letter or `_`, and then letters, digits and `_`.
pub fn is_name(text: &[u8]) -> bool
    ensures { result ≡ is_name text.now }
{
    match text {
        [] => false,
        [first, rest @ ..] => is_name_start(*first) && are_name_bytes(rest),
    }
}
