// References are judged last, in order: a second walk over the records.
ghost use Rattle.std.specs.Prelude.{◌≡◌, List, ◌≤◌, length, drop};
ghost use Rattle.meaning.specs.Bytes.{byte_at};
ghost use Rattle.meaning.specs.Model.{Table, found, tables_of, type_of, target_of};
ghost use Rattle.meaning.specs.Check.{Checked, judge_references, is_outside};
ghost use Rattle.model_records.specs.Records.{records_at, next_at};
ghost use Rattle.model_check.specs.References.{topic_numbers, outside_meant, judges, judged};

use model_records::{ATTRIBUTE, REFERENCE, TABLE, TOPIC, numbers};

// Where the judging stands: the byte of a record, the count of topics before it, and whether it lies behind a table's
// record.
#[derive(Clone, Copy)]
pub struct Judge {
    pub at: usize,
    pub topics: usize,
    pub inside: bool,
}

// Whether a table is not there, or not in this topic.
fn is_foreign(places: &[usize], table: usize, topic: usize) -> bool
    ensures { (ts : List Table) → topic_numbers ts ≡ places.now → result ≡ is_outside ts topic (found table) }
{
    places.len() <= table || places[table] != topic
}

// Whether a payload is that of a reference outside.
fn refers_outside(payload: &[u8], places: &[usize], topic: usize) -> bool
    ensures { (ts : List Table) → topic_numbers ts ≡ places.now → let p = payload.now in
        result ≡ is_outside ts topic (target_of (type_of (byte_at p 1) (drop 2 p))) }
{
    if numbers::byte_at(payload, 1) != REFERENCE {
        return false;
    }
    let low = numbers::byte_at(payload, 2) as usize;
    let high = numbers::byte_at(payload, 3) as usize;
    is_foreign(places, low + 256 * high, topic)
}

// Whether the record where the judging stands is an attribute that refers outside.
fn is_bad(model: &[u8], judge: Judge, places: &[usize]) -> bool
    requires { next_at model.now judge.at ≤ length model.now }
    ensures { (ts : List Table) → topic_numbers ts ≡ places.now → result ≡ judges ts model.now judge }
{
    let at = judge.at;
    if model_records::kind_at(model, at) != ATTRIBUTE || !judge.inside {
        return false;
    }
    let end = model_records::next_at(model, at);
    refers_outside(&model[at + 4..end], places, judge.topics.saturating_sub(1))
}

// The judging behind the record where it stands.
fn go_on(model: &[u8], judge: Judge) -> Judge
    requires at_in_bounds { next_at model.now judge.at ≤ length model.now }
    requires topics_le_at { judge.topics ≤ judge.at }
    ensures { result ≡ judged model.now judge }
{
    let at = model_records::next_at(model, judge.at);
    match model_records::kind_at(model, judge.at) {
        TOPIC => Judge {
            at,
            topics: judge.topics + 1,
            inside: false,
        },
        TABLE => Judge {
            at,
            inside: true,
            ..judge
        },
        ATTRIBUTE => Judge { at, ..judge },
        _ => Judge {
            at,
            inside: false,
            ..judge
        },
    }
}

// "References are judged last, in order": the byte of the first one to a table that is not there or in another topic,
// or none. Each table has its topic among the places.
pub(crate) fn first_outside(model: &[u8], places: &[usize]) -> Option<usize>
    ensures { (ts : List Table) (rest : Checked) → topic_numbers ts ≡ places.now
        → outside_meant result rest ≡ judge_references ts (tables_of 0 (records_at model.now 0)) rest }
{
    let mut j = Judge {
        at: 0,
        topics: 0,
        inside: false,
    };
    // By hand: what a record says of the topic is noted as the walk goes on.
    while model_records::fits_at(model, j.at) {
        if is_bad(model, j, places) {
            return Some(j.at);
        }
        j = go_on(model, j);
    }
    None
}
