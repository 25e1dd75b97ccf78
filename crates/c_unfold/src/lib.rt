//! The check of a model and the unfolding, exported to C, on slices, each answering one u64: the answer's first number
//! plus 256 times its second.
#![tactic(auto)]

ghost use Rattle.std.specs.Prelude.{◌≡◌, ◌≤◌, length};
ghost use Rattle.meaning.specs.Answer.{check, unfold_text, code_for_c};
ghost use Rattle.model_check.specs.Walk.{checked_meant};
ghost use Rattle.unfold.specs.Answer.{answer_of, Within};

use model_check::check::BadRecord;
use unfold::Fault;

// The check's one number.
fn code_of_check(checked: Result<usize, BadRecord>) -> u64
    requires { code_for_c (checked_meant checked) ≤ 16777218 }
    ensures { result ≡ code_for_c (checked_meant checked) }
{
    match checked {
        Ok(topics) => 256 * (topics as u64),
        Err(bad) => 2 + 256 * (bad.at as u64),
    }
}

// The unfolding's one number.
fn code_of_text(answer: Result<usize, Fault>) -> u64
    requires { Within 16777216 answer }
    ensures { result ≡ code_for_c (answer_of answer) }
{
    match answer {
        Ok(bytes) => 256 * (bytes as u64),
        Err(fault) => u64::from(fault.reason.number()) + 256 * (fault.line as u64),
    }
}

// 0 and the number of topics, or 2 and the byte of the first bad record.
#[unsafe(no_mangle)]
pub extern "C" fn vendorfinch_check_model(model: &[u8]) -> u64
    ensures { result ≡ code_for_c (check model.now) }
{
    code_of_check(model_check::check::check(model))
}

// 0 and the number of text bytes, or reading's 1, 2, 3 to 6; the room holds the text and zeros, or nothing but zeros.
#[unsafe(no_mangle)]
pub extern "C" fn vendorfinch_unfold(model: &[u8], file: &[u8], text: &mut [u8]) -> u64
    ensures code { let meant = unfold_text model.now file.now (length text.old) in
        result ≡ code_for_c meant.answer }
    ensures room { let meant = unfold_text model.now file.now (length text.old) in
        text.new ≡ meant.text }
{
    if 16777216 < file.len() {
        text.fill(0);
        return 1;
    }
    let checked = model_check::check::check(model);
    match checked {
        Err(_) => {
            text.fill(0);
            code_of_check(checked)
        }
        Ok(_) => code_of_text(unfold::unfold_with(file, model_records::mark_of(model), text)),
    }
}
