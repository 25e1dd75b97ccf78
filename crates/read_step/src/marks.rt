// The mark of a topic or table that a line begins.
ghost use Rattle.std.specs.Prelude.{◌≡◌, ◌+◌, set};
ghost use Rattle.read_step.specs.Steps.{topic_marks_by, marks_by};

use read_state::{Due, FrameDue};

// "1 where delivered", so many behind the first ones; there is no mark behind the end.
fn put_mark(marks: &mut [u8], first: usize, n: usize)
    ensures { marks.new ≡ set marks.old (first + n) 1 }
{
    if first < marks.len() && n < marks.len() - first {
        marks[first + n] = 1;
    }
}

// The mark of the topic that a line outside objects began, where it began one.
fn mark_topic(marks: &mut [u8], due: FrameDue)
    ensures { marks.new ≡ topic_marks_by due marks.old }
{
    if let FrameDue::Table(topic, _) = due {
        put_mark(marks, 0, topic);
    }
}

// "Marks: one byte per topic, then per table": the line that led here began a topic, a table, or none.
pub(crate) fn mark_due(marks: &mut [u8], topics: usize, due: Due)
    ensures { marks.new ≡ marks_by topics due marks.old }
{
    match due {
        Due::Frame(frame) => {
            mark_topic(marks, frame);
        }
        Due::Object(table) => {
            put_mark(marks, topics, table);
        }
        Due::Line(_) => {}
    }
}
