// The check of a compiled model.
ghost use Rattle.std.specs.Prelude.{◌≡◌, ◌≤◌, length};
ghost use Rattle.meaning.specs.Answer as meaning;
ghost use Rattle.meaning.specs.Check.{keeps, keeps_topic, keeps_table};
ghost use Rattle.model_check.specs.Names.{names_of};
ghost use Rattle.model_records.specs.Records.{next_at};
ghost use Rattle.model_check.specs.Walk.{seen_of, passes_at, advanced, topics_seen, tables_seen, WalkerHolds};
ghost use Rattle.model_check.specs.Walk.{checked_records, checked_meant};

use crate::{attributes, names, records, references, rules};
use base::reasons::{Reason, Refused};
use model_records::{ATTRIBUTE, END, MODEL, TABLE, TOPIC, TRANSFER};

// A bad model, by the byte of its first bad record.
#[derive(Clone, Copy)]
pub struct BadRecord {
    pub at: usize,
}

// "2 .. the byte where the first bad record begins".
impl From<BadRecord> for Refused {
    ghost use Rattle.std.specs.Prelude.{◌≡◌};
    ghost use Rattle.base.specs.declared.reasons.Reason.TheVariants.{ModelBad};

    ghost from_gives = { λ bad r. r ≡ record { reason = ModelBad; first = bad.at; second = 0 } };

    fn from(bad: BadRecord) -> Refused {
        Refused {
            reason: Reason::ModelBad,
            first: bad.at,
            second: 0,
        }
    }
}

// Where the check stands: the byte of a record, the kind of the one before it, how many topics, tables of the last
// topic and attributes of the last table were seen, and how many tables in all.
#[derive(Clone, Copy)]
pub struct Walker {
    pub at: usize,
    pub before: u16,
    pub topics: usize,
    pub tables: usize,
    pub attributes: usize,
    pub count: usize,
}

// "3 topic: name, 1 to 24 bytes", "At most 64 topics"
fn keeps_topic(model: &[u8], payload: &[u8], seen: &[usize]) -> bool
    ensures { result ≡ keeps_topic payload.now (topics_seen (names_of model.now seen.now)) }
{
    names::is_free(model, payload, seen, seen.len(), 64)
}

// "4 table: optional (0 or 1), name of 1 to 24 bytes", "512 tables"
fn keeps_table(model: &[u8], payload: &[u8], seen: &[usize], all: usize) -> bool
    ensures { result ≡ keeps_table payload.now (tables_seen (names_of model.now seen.now) all) }
{
    if payload.is_empty() {
        return false;
    }
    let free = names::is_free(model, &payload[1..], seen, all, 512);
    rules::is_flag(payload) & free
}

// Does a record of this kind keep the rules, behind what is seen?
fn keeps_rules(
    model: &[u8],
    payload: &[u8],
    kind: u16,
    walker: Walker,
    topics: &[usize],
    tables: &[usize],
    attributes: &[usize],
) -> bool
    requires topics_in_bounds { walker.topics ≤ length topics.now }
    requires tables_in_bounds { walker.tables ≤ length tables.now }
    requires attributes_in_bounds { walker.attributes ≤ length attributes.now }
    ensures { result
        ≡ keeps kind payload.now
        (seen_of model.now walker topics.now tables.now attributes.now) }
{
    match kind {
        TRANSFER => rules::keeps_transfer(payload),
        MODEL => rules::is_name(payload, 63),
        TOPIC => keeps_topic(model, payload, &topics[..walker.topics]),
        TABLE => keeps_table(model, payload, &tables[..walker.tables], walker.count),
        ATTRIBUTE => {
            attributes::keeps_attribute(model, payload, &attributes[..walker.attributes])
        }
        _ => payload.is_empty(),
    }
}

// Whether the record at the walker's byte fits, may stand there and keeps the rules.
fn passes(
    model: &[u8],
    walker: Walker,
    topics: &[usize],
    tables: &[usize],
    attributes: &[usize],
) -> bool
    requires topics_in_bounds { walker.topics ≤ length topics.now }
    requires tables_in_bounds { walker.tables ≤ length tables.now }
    requires attributes_in_bounds { walker.attributes ≤ length attributes.now }
    ensures { result
        ≡ passes_at model.now walker topics.now tables.now attributes.now }
{
    let at = walker.at;
    if !model_records::fits_at(model, at) {
        return false;
    }
    let kind = model_records::kind_at(model, at);
    let end = model_records::next_at(model, at);
    let payload = &model[at + 4..end];
    rules::may_follow(walker.before, kind)
        & keeps_rules(model, payload, kind, walker, topics, tables, attributes)
}

// The walker behind the record at its byte.
fn advance(model: &[u8], walker: Walker) -> Walker
    requires at_in_bounds { next_at model.now walker.at ≤ length model.now }
    requires topics_bound { walker.topics ≤ 64 }
    requires tables_bound { walker.tables ≤ 512 }
    requires attributes_bound { walker.attributes ≤ 64 }
    requires count_bound { walker.count ≤ 512 }
    ensures { result ≡ advanced model.now walker }
{
    let kind = model_records::kind_at(model, walker.at);
    let next = Walker {
        at: model_records::next_at(model, walker.at),
        before: kind,
        ..walker
    };
    match kind {
        TOPIC => Walker {
            topics: walker.topics + 1,
            tables: 0,
            attributes: 0,
            ..next
        },
        TABLE => Walker {
            tables: walker.tables + 1,
            attributes: 0,
            count: walker.count + 1,
            ..next
        },
        ATTRIBUTE => Walker {
            attributes: walker.attributes + 1,
            ..next
        },
        _ => next,
    }
}

// What the walk's end says: the end record was the last, and no reference lies outside.
fn finish(model: &[u8], walker: Walker, places: &[usize]) -> Result<usize, BadRecord>
    requires { WalkerHolds model.now walker places.now }
    ensures { checked_meant result ≡ meaning.check_answer (checked_records model.now) }
{
    if walker.before != END {
        return Err(BadRecord { at: walker.at });
    }
    match references::first_outside(model, &places[..walker.count]) {
        Some(at) => Err(BadRecord { at }),
        None => Ok(walker.topics),
    }
}

// The walk over the records. Each name is stored behind those that count; the walker says whether it counts.
fn check_records(model: &[u8]) -> Result<usize, BadRecord>
    requires { length model.now ≤ 65536 }
    ensures { checked_meant result ≡ meaning.check_answer (checked_records model.now) }
{
    // Fixed memory: room for as many as a model may have and one more.
    let mut topics: [usize; 65] = [0; 65];
    let mut tables: [usize; 513] = [0; 513];
    let mut attributes: [usize; 65] = [0; 65];
    let mut places: [usize; 513] = [0; 513];
    let mut w = Walker {
        at: 0,
        before: 0,
        topics: 0,
        tables: 0,
        attributes: 0,
        count: 0,
    };
    // By hand: each record is judged before the walk goes on behind it.
    while w.at < model.len() {
        if !passes(model, w, &topics, &tables, &attributes) {
            return Err(BadRecord { at: w.at });
        }
        let name = records::name_at(model, w.at);
        topics[w.topics] = name;
        tables[w.tables] = name;
        attributes[w.attributes] = name;
        places[w.count] = w.topics.saturating_sub(1);
        w = advance(model, w);
    }
    finish(model, w, &places)
}

// The check of a compiled model: the count of its topics, or the byte of the first bad record.
pub fn check(model: &[u8]) -> Result<usize, BadRecord>
    ensures { checked_meant result ≡ meaning.check model.now }
{
    if 65536 < model.len() {
        return Err(BadRecord { at: 0 });
    }
    check_records(model)
}
