//! The names that no declaration may take.
ghost use Rattle.std.specs.Prelude.{◌≡◌};
ghost use Rattle.hol_terms.specs.BuiltIn as names;

fn is_logic_name(text: &[u8]) -> bool
    ensures { result ≡ names.is_one_of names.logic_names text.now }
{
    text == b"true".as_slice()
        || text == b"false".as_slice()
        || text == b"not".as_slice()
        || text == b"and".as_slice()
        || text == b"or".as_slice()
        || text == b"=>".as_slice()
        || text == b"eq".as_slice()
        || text == b"ite".as_slice()
        || text == b"all".as_slice()
        || text == b"ex".as_slice()
        || text == b"choice".as_slice()
}

fn is_integer_name(text: &[u8]) -> bool
    ensures { result ≡ names.is_one_of names.integer_names text.now }
{
    text == b"+".as_slice()
        || text == b"*".as_slice()
        || text == b"neg".as_slice()
        || text == b"sub".as_slice()
        || text == b"div".as_slice()
        || text == b"mod".as_slice()
        || text == b"le".as_slice()
        || text == b"lt".as_slice()
}

fn is_real_name(text: &[u8]) -> bool
    ensures { result ≡ names.is_one_of names.real_names text.now }
{
    text == b"frac".as_slice()
        || text == b"radd".as_slice()
        || text == b"rneg".as_slice()
        || text == b"rsub".as_slice()
        || text == b"rmul".as_slice()
        || text == b"rle".as_slice()
        || text == b"rlt".as_slice()
}

/// Whether a text is the name of one of HOL's constants, or a word kept for the reals: no file may declare it.
pub fn built_in(text: &[u8]) -> bool
    ensures { result ≡ names.is_built_in text.now }
{
    is_logic_name(text) || is_integer_name(text) || is_real_name(text)
}
