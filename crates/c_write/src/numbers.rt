// The answer of writing as numbers: in a lent room, and as one.
ghost use Rattle.std.specs.Prelude.{◌≡◌, ◌≤◌, length};
ghost use Rattle.meaning.specs.Answer.{code_for_c, numbers_in, first_of};
ghost use Rattle.write.specs.Answers.{answer_of};

use base::reasons::Refused;
use base::rooms::put_four;

// "success gives 0, bytes written, 0, 0"; or a refusal and its place
pub(crate) fn store_written(answer: Result<usize, Refused>, room: &mut [u64])
    ensures { room.new ≡ numbers_in (length room.old) (answer_of answer) }
{
    match answer {
        Ok(bytes) => put_four(room, 0, bytes as u64, 0, 0),
        Err(refused) => put_four(
            room,
            refused.reason.number() as u64,
            refused.first as u64,
            refused.second as u64,
            0,
        ),
    }
}

// Its one number.
pub(crate) fn code_of_write(answer: Result<usize, Refused>) -> u64
    requires { first_of (answer_of answer) ≤ 16777217 }
    ensures { result ≡ code_for_c (answer_of answer) }
{
    match answer {
        Ok(bytes) => 256 * (bytes as u64),
        Err(refused) => refused.reason.number() as u64 + 256 * (refused.first as u64),
    }
}
