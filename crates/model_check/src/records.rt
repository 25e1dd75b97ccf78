// Records by their byte in the model.
ghost use Rattle.std.specs.Prelude.{◌≡◌, ◌+◌, ◌≤◌, length, drop};
ghost use Rattle.meaning.specs.Bytes.{u16_at};
ghost use Rattle.model_check.specs.Records.{name_start};
ghost use Rattle.model_records.specs.Records.{payload_at, next_at};
ghost use Rattle.model_check.specs.Names.{name_of};

use crate::attributes;
use model_records::{TABLE, TOPIC, numbers};

// Where the name begins in the payload of a topic, a table or an attribute.
fn name_start(payload: &[u8], kind: u16) -> usize
    ensures { result ≡ name_start kind payload.now }
{
    match kind {
        TOPIC => 0,
        TABLE => 1,
        _ => attributes::parameters_end(payload),
    }
}

// The name of a record as one number: 65536 times its start in the model, plus its length.
pub(crate) fn name_at(model: &[u8], at: usize) -> usize
    requires model_len_bound { length model.now ≤ 65536 }
    requires at_in_bounds { next_at model.now at ≤ length model.now }
    ensures { name_of model.now result
        ≡ drop (name_start (u16_at model.now (at + 2)) (payload_at model.now at))
        (payload_at model.now at) }
{
    let kind = model_records::kind_at(model, at);
    let start = at + 4;
    let end = model_records::next_at(model, at);
    let from = name_start(&model[start..end], kind);
    let size = end - start;
    if size <= from {
        return 0;
    }
    65536 * (start + from) + (size - from)
}
