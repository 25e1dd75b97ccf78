// "Topic and table names compare by their first 24 bytes".
ghost use Rattle.std.specs.Prelude.{◌≡◌};
ghost use Rattle.meaning.specs.Reading.{same_name};

use base::compare;

pub(crate) fn same_name(a: &[u8], name: &[u8]) -> bool
    ensures { result ≡ same_name a.now name.now }
{
    let n = a.len().min(24);
    let k = name.len().min(24);
    compare::same_bytes(&a[..n], &name[..k])
}
