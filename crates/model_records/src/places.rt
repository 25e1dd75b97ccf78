// Where a good model's topics and tables stand: noted in one walk behind the check, and looked up by their numbers.
ghost use Rattle.std.specs.Prelude.{◌≡◌, ◌+◌, ◌≤◌, ◌<◌, length};
ghost use Rattle.meaning.specs.Check.{good, check_model};
ghost use Rattle.meaning.specs.Model.{table_at};
ghost use Rattle.model_records.specs.Records.{kind_at, model_at};
ghost use Rattle.model_records.specs.AtRecord.{AtRecord};
ghost use Rattle.model_records.specs.Places.{topic_place, table_place, topic_of, attributes_place};
ghost use Rattle.model_records.specs.Places.{noted_by, RecordPassed, Placed};

use crate::{END, TABLE, TOPIC};

// The counts of a good model's topics and tables, its undefined byte and its mark.
#[derive(Clone, Copy)]
pub struct Shape {
    pub topics: usize,
    pub tables: usize,
    pub undefined: u8,
    pub mark: u8,
}

// Where a table's record stands, and its topic.
#[derive(Clone, Copy)]
pub struct TablePlace {
    pub at: usize,
    pub topic: usize,
}

// Where the records of topics and tables stand: at most 64 and 512.
#[derive(Drop)]
pub struct Places {
    pub topics: [usize; 64],
    pub tables: [TablePlace; 512],
}

// A good model's records: its bytes, its shape, and where its topics and tables stand.
#[derive(Drop)]
pub struct Records<'a> {
    pub bytes: &'a [u8],
    pub shape: Shape,
    pub places: Places,
}

// A place among the records: the topics and tables passed, and the byte of the next record.
#[derive(Clone, Copy)]
pub struct RecordCursor {
    pub topics: usize,
    pub tables: usize,
    pub at: usize,
}

// Behind the record that the cursor is at.
fn pass_record(model: &[u8], here: RecordCursor) -> RecordCursor
    requires at_record { AtRecord (model_at model.now) model.now here.at here.topics here.tables }
    requires not_end { kind_at model.now here.at ≡ 6 → ⊥ }
    ensures { RecordPassed (model_at model.now) model.now here result }
{
    let mut next = here;
    next.at = crate::next_at(model, here.at);
    match crate::kind_at(model, here.at) {
        TOPIC => {
            next.topics = here.topics + 1;
        }
        TABLE => {
            next.tables = here.tables + 1;
        }
        _ => {}
    }
    next
}

// Notes a topic's record by its byte, a table's by its byte and its topic, the last of those passed.
fn note_record(places: &mut Places, kind: u16, here: RecordCursor)
    requires topics_bound { kind ≡ 3 → here.topics < 64 }
    requires tables_bound { kind ≡ 4 → (here.tables < 512) × (1 ≤ here.topics) }
    ensures { places.new ≡ noted_by kind here places.old }
{
    match kind {
        TOPIC => {
            places.topics[here.topics] = here.at;
        }
        TABLE => {
            places.tables[here.tables] = TablePlace {
                at: here.at,
                topic: here.topics - 1,
            };
        }
        _ => {}
    }
}

// The one walk over the records of a good model: its shape, and a place for each topic and table.
pub fn place_records(model: &[u8]) -> Records<'_>
    requires { check_model model.now ≡ good (model_at model.now) }
    ensures bytes { result.bytes.now ≡ model.now }
    ensures placed { Placed result }
{
    let mut places = Places {
        topics: [0; 64],
        tables: [TablePlace { at: 0, topic: 0 }; 512],
    };
    let mut here = RecordCursor {
        topics: 0,
        tables: 0,
        at: crate::first_record(model),
    };
    // By hand: the walk of which the places of all others come.
    'records: loop {
        let kind = crate::kind_at(model, here.at);
        if kind == END {
            let shape = Shape {
                topics: here.topics,
                tables: here.tables,
                undefined: crate::undefined_of(model),
                mark: crate::mark_of(model),
            };
            return Records {
                bytes: model,
                shape,
                places,
            };
        }
        note_record(&mut places, kind, here);
        here = pass_record(model, here);
    }
}

impl Records<'_> {
    // The byte of a topic's record.
    pub fn topic_at(&self, topic: usize) -> usize
        requires { topic < 64 }
        ensures { result ≡ topic_place self.now.places topic }
    {
        self.places.topics[topic]
    }

    // The byte of a table's record.
    pub fn table_at(&self, table: usize) -> usize
        requires { table < 512 }
        ensures { result ≡ table_place self.now.places table }
    {
        self.places.tables[table].at
    }

    // The topic of a table.
    pub fn topic_of(&self, table: usize) -> usize
        requires { table < 512 }
        ensures { result ≡ topic_of self.now.places table }
    {
        self.places.tables[table].topic
    }

    // The byte of a table's first attribute record, or of what follows the table where it has none.
    pub fn attributes_at(&self, table: usize) -> usize
        requires placed { Placed self.now }
        requires table_lt_tables { table < self.now.shape.tables }
        ensures { result ≡ attributes_place self.now.bytes.now self.now.places table }
    {
        crate::next_at(self.bytes, self.table_at(table))
    }

    // Whether a table may be left out.
    pub fn is_optional(&self, table: usize) -> bool
        requires placed { Placed self.now }
        requires table_lt_tables { table < self.now.shape.tables }
        ensures { result ≡ (table_at (model_at self.now.bytes.now).tables table).optional }
    {
        crate::optional_at(self.bytes, self.table_at(table))
    }
}
