// The walk over the attribute records of a table.
ghost use Rattle.std.specs.Prelude.{◌≡◌, ◌-◌, length};
ghost use Rattle.std.specs.Iterator.{at_most};
ghost use Rattle.model_records.specs.Records.{model_at};
ghost use Rattle.model_records.specs.AtRecord.{AttributesHere};
ghost use Rattle.model_records.specs.AttributeRecords.{GivesRecord};

use crate::ATTRIBUTE;

// The attribute records from a byte on, each by its byte.
#[derive(Drop)]
pub struct AttributeRecords<'a> {
    model: &'a [u8],
    at: usize,
}

// The attribute records of the table whose first is at this byte.
pub fn attribute_records(model: &[u8], first: usize) -> AttributeRecords<'_>
    ensures model { result.model.now ≡ model.now }
    ensures first { result.at ≡ first }
{
    AttributeRecords { model, at: first }
}

impl Iterator for AttributeRecords<'_> {
    type Item = usize;

    ghost can_next = { λ s. AttributesHere (model_at s.model.now) s.model.now s.at };

    ghost next_gives = { GivesRecord };

    ghost remaining = { λ s. at_most (length s.model.now - s.at) };

    fn next(&mut self) -> Option<usize> {
        let at = self.at;
        if crate::kind_at(self.model, at) != ATTRIBUTE {
            return None;
        }
        self.at = crate::next_at(self.model, at);
        Some(at)
    }
}
