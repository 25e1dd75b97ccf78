// The answer of reading as numbers: in a lent room, and as one.
ghost use Rattle.std.specs.Prelude.{◌≡◌, ◌≤◌, length};
ghost use Rattle.meaning.specs.Answer.{code_for_c, numbers_in, first_of};
ghost use Rattle.read_text.specs.Outcomes.{answer_of};

use base::rooms::put_four;
use read_text::Answer;

// "0, objects, cells, points; or a refusal, two place numbers, 0"
pub(crate) fn store(answer: Answer, room: &mut [u64])
    ensures { room.new ≡ numbers_in (length room.old) (answer_of answer) }
{
    match answer {
        Ok(used) => put_four(
            room,
            0,
            used.objects as u64,
            used.cells as u64,
            used.points as u64,
        ),
        Err(refused) => put_four(
            room,
            u64::from(refused.reason.number()),
            refused.first as u64,
            refused.second as u64,
            0,
        ),
    }
}

// Its one number.
pub(crate) fn code_of_read(answer: Answer) -> u64
    requires { first_of (answer_of answer) ≤ 16777217 }
    ensures { result ≡ code_for_c (answer_of answer) }
{
    match answer {
        Ok(used) => 256 * (used.objects as u64),
        Err(refused) => u64::from(refused.reason.number()) + 256 * (refused.first as u64),
    }
}
