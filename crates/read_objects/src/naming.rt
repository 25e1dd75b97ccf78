// The identification of an OBJE line.
ghost use Rattle.read_objects.specs.Names.{Identifies};

use base::parts::Part;
use base::reasons::Reason;
use read_fields::taking::Form;

// The identification's part of the rest of the line: its first field; 11 where it is missing, 12 where it is undefined,
// 13 by its shape.
pub(crate) fn take_identification(rest: &[u8], undefined: u8) -> Result<Part, Reason>
    ensures { Identifies undefined rest.now result }
{
    let taken = read_fields::taking::take_field(rest, undefined).ok_or(Reason::FieldCount)?;
    let part = taken.part;
    match taken.form {
        Form::Defined => {
            let end = part.start + part.len;
            if value_read::stretches::is_identification(&rest[part.start..end]) {
                Ok(part)
            } else {
                Err(Reason::WrongShape)
            }
        }
        Form::Undefined | Form::Twice => Err(Reason::UndefinedField),
    }
}
