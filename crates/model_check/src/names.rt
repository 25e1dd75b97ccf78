// Names that were seen, each kept as one number: 65536 times its start in the model, plus its length.
ghost use Rattle.std.specs.Prelude.{◌≡◌, not, [], ◌∷◌, ltb};
ghost use Rattle.meaning.specs.Bytes.{same, all_of};
ghost use Rattle.meaning.specs.Check.{is_name, is_among};
ghost use Rattle.model_check.specs.Names.{name_of, names_of};

use crate::rules;

// Whether two names are equal: lengths first, then the last bytes, in which the names of a long list often differ.
// `==` alone takes up to three times as long.
fn same_name(a: &[u8], b: &[u8]) -> bool
    ensures { result ≡ same a.now b.now }
{
    let n = a.len();
    if n != b.len() {
        return false;
    }
    if n == 0 {
        return true;
    }
    if a[n - 1] != b[n - 1] {
        return false;
    }
    a == b
}

// Whether a name that was seen is this one.
fn is_word(model: &[u8], word: usize, name: &[u8]) -> bool
    ensures { result ≡ same (name_of model.now word) name.now }
{
    let start = (word / 65536).min(model.len());
    let end = start + (word % 65536).min(model.len() - start);
    same_name(&model[start..end], name)
}

// "Names are unique": is this one among those seen?
fn is_among(model: &[u8], name: &[u8], seen: &[usize]) -> bool
    ensures { result ≡ is_among name.now (names_of model.now seen.now) }
{
    seen.iter().any(|word| is_word(model, *word, name))
}

// A name of 1 to 24 bytes, below a limit, and not seen yet.
pub(crate) fn is_free(model: &[u8], name: &[u8], seen: &[usize], used: usize, most: usize) -> bool
    ensures { result
        ≡ all_of (is_name 24 name.now ∷ ltb used most
        ∷ not (is_among name.now (names_of model.now seen.now)) ∷ []) }
{
    rules::is_name(name, 24) & (used < most) & !is_among(model, name, seen)
}
