// The lines that name the transfer and the model.
ghost use Rattle.std.specs.Prelude.{◌≡◌, List, ℕ};
ghost use Rattle.meaning.specs.Check.{good, check_model};
ghost use Rattle.meaning.specs.Field.{fields_of};
ghost use Rattle.meaning.specs.Reading.{Content, Rooms};
ghost use Rattle.meaning.specs.Lines.{transfer_line, model_line};
ghost use Rattle.read_state.specs.Meaning.{next_due_of};
ghost use Rattle.model_records.specs.Records.{model_at};
ghost use Rattle.read_frame.specs.Moves.{NextDueHolds};

use crate::codes::Code;
use crate::{codes, lines};
use base::reasons::{Reason, Refusal};
use read_state::{Due, FrameDue};

// "MTID with the transfer name"; 8: "MOTR in place of MTID".
pub fn transfer_line(model: &[u8], line: &[u8]) -> Result<Due, Refusal>
    requires { check_model model.now ≡ good (model_at model.now) }
    ensures meant { (rooms : Rooms) (text : List ℕ) (s : ℕ) (c : Content)
        → next_due_of model.now result c
        ≡ transfer_line (model_at model.now) rooms text (fields_of s line.now) c }
    ensures held { NextDueHolds (model_at model.now) model.now result }
{
    let head = codes::head_of(line);
    let second = model_records::next_at(model, 0);
    match head.code {
        Some(Code::Mtid) => lines::named_line(
            &line[head.behind..],
            &model[7..second],
            Due::Frame(FrameDue::ModelName),
        ),
        Some(Code::Motr) => Err(Refusal {
            reason: Reason::MotrForMtid,
            field: 1,
        }),
        _ => Err(Refusal {
            reason: Reason::OtherCode,
            field: 1,
        }),
    }
}

// "MODL with the model name".
pub fn model_line(model: &[u8], line: &[u8]) -> Result<Due, Refusal>
    requires { check_model model.now ≡ good (model_at model.now) }
    ensures meant { (rooms : Rooms) (text : List ℕ) (s : ℕ) (c : Content)
        → next_due_of model.now result c
        ≡ model_line (model_at model.now) rooms text (fields_of s line.now) c }
    ensures held { NextDueHolds (model_at model.now) model.now result }
{
    let head = codes::head_of(line);
    if head.code != Some(Code::Modl) {
        return Err(Refusal {
            reason: Reason::OtherCode,
            field: 1,
        });
    }
    let second = model_records::next_at(model, 0);
    let first = model_records::next_at(model, second);
    lines::named_line(
        &line[head.behind..],
        &model[second + 4..first],
        Due::Frame(FrameDue::Topic(0)),
    )
}
