// Where the model ends and the file begins.
ghost use Rattle.std.specs.Prelude.{◌≡◌, ◌≤◌, length};
ghost use Rattle.meaning.specs.Model.{records_from};
ghost use Rattle.meaning.specs.Listing.{model_size};

use model_records::END;

// "The model goes, record by record, up to its first of kind 6; if there is none, or a record overruns, all is model"
pub fn model_size(input: &[u8]) -> usize
    ensures size { result ≡ model_size (length input.now) (records_from 0 0 input.now) }
    ensures within { result ≤ length input.now }
{
    let mut at = 0;
    // By hand: nothing is known of these records yet, and no other walk goes over them.
    while model_records::fits_at(input, at) {
        let kind = model_records::kind_at(input, at);
        at = model_records::next_at(input, at);
        if kind == END {
            return at;
        }
    }
    input.len()
}
