// A field in its turn.
ghost use Rattle.read_fields.specs.FieldForm.{HasForm, Takes};

use base::parts::Part;
use value_read::stretches;

// What a field is: defined, the undefined byte, or two of them.
#[derive(Clone, Copy)]
pub enum Form {
    Defined,
    Undefined,
    Twice,
}

// The next field, by its place in the rest, and what it is.
#[derive(Clone, Copy)]
pub struct Taken {
    pub part: Part,
    pub form: Form,
}

fn form_of(field: &[u8], undefined: u8) -> Form
    ensures { HasForm undefined field.now result }
{
    if stretches::is_undefined_twice(undefined, field) {
        Form::Twice
    } else if stretches::is_undefined(undefined, field) {
        Form::Undefined
    } else {
        Form::Defined
    }
}

pub fn take_field(rest: &[u8], undefined: u8) -> Option<Taken>
    ensures { Takes undefined rest.now result }
{
    let part = base::fields::next_field(rest)?;
    let end = part.start + part.len;
    let form = form_of(&rest[part.start..end], undefined);
    Some(Taken { part, form })
}
