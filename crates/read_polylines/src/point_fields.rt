// A point: the values of its line's fields.
ghost use Rattle.std.specs.Prelude.{◌≡◌, ◌≤◌, length};
ghost use Rattle.model_records.specs.Components.{component_of, components_of};
ghost use Rattle.read_polylines.specs.PointFields.{GetsValue, ReadsPoint};

use base::reasons::{Reason, Refusal};
use model_records::{Component, Components};
use read_fields::taking;
use read_fields::taking::Form;

// The value of the next field, and where the field ends in the rest: "Points are never undefined".
fn get_value(rest: &[u8], undefined: u8, component: Component) -> Result<(i64, usize), Reason>
    ensures { GetsValue undefined (component_of component) rest.now result }
{
    let taken = taking::take_field(rest, undefined).ok_or(Reason::FieldCount)?;
    match taken.form {
        Form::Defined => {
            let end = taken.part.start + taken.part.len;
            let (_, v) = value_read::numbers::read_number(&rest[taken.part.start..end], component)?;
            Ok((v, end))
        }
        Form::Undefined | Form::Twice => Err(Reason::UndefinedField),
    }
}

// The values of a point's fields, which follow its line's code: as many as there are components.
pub(crate) fn point_values(
    rest: &[u8],
    undefined: u8,
    components: Components,
) -> Result<[i64; 3], Refusal>
    ensures { ReadsPoint undefined (components_of components) rest.now components.count result }
{
    let count = components.count;
    let items = components.items;
    let mut values = [0; 3];
    let mut at = 0;
    for i in 0..count {
        let got = get_value(&rest[at..], undefined, items[i]);
        let (v, end) = got.map_err(|reason| Refusal {
            reason,
            field: i + 2,
        })?;
        values[i] = v;
        at += end;
    }
    match base::fields::next_field(&rest[at..]) {
        None => Ok(values),
        Some(_) => Err(Refusal {
            reason: Reason::FieldCount,
            field: count + 2,
        }),
    }
}
