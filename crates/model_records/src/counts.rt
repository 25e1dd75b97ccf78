// How many fields and pairs an attribute has, and the pairs of a table's attributes.
ghost use Rattle.std.specs.Prelude.{◌≡◌, ◌+◌, ◌≤◌, length};
ghost use Rattle.model_records.specs.Records.{model_at, pairs_at};
ghost use Rattle.model_records.specs.AtRecord.{AttributesHere};
ghost use Rattle.model_records.specs.Counts.{CountsOf};

use crate::LINE;

// How many fields and pairs an attribute has, by its type's number.
#[derive(Clone, Copy)]
pub struct Counts {
    pub fields: usize,
    pub pairs: usize,
}

// A coordinate has a field and a pair for each component, a line no field on its object's line.
pub fn count_of(kind: u8) -> Counts
    ensures { CountsOf kind result.fields result.pairs }
{
    match kind {
        2 => Counts {
            fields: 2,
            pairs: 2,
        },
        3 => Counts {
            fields: 3,
            pairs: 3,
        },
        LINE => Counts {
            fields: 0,
            pairs: 1,
        },
        _ => Counts {
            fields: 1,
            pairs: 1,
        },
    }
}

// The count of pairs of a table whose attribute records begin at the byte `first`.
pub fn count_pairs(model: &[u8], first: usize) -> usize
    requires { AttributesHere (model_at model.now) model.now first }
    ensures count { result ≡ length (pairs_at model.now first) }
    ensures few { first + result ≤ length model.now }
{
    let mut pairs = 0;
    for at in crate::attribute_records(model, first) {
        pairs += count_of(model[at + 5]).pairs;
    }
    pairs
}
