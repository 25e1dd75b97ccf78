// What is printed: "the answer, then a line of cells per object, then a line per point; after a refusal the answer
// alone".
ghost use Rattle.std.specs.Prelude.{◌*◌, ◌<◌, length};

use crate::rooms;
use listing_lines::rows;
use read_text::Answer;
use std::io;
use std::io::Write;

pub(crate) fn show_answer(
    rt: &HostRuntime,
    number: u8,
    first: usize,
    second: usize,
    third: usize,
) -> io::Result<()> {
    println!(rt; "{number} {first} {second} {third}")
}

// A line of the cells from one to before another.
fn show_row(
    rt: &HostRuntime,
    cells: &[i64],
    from: usize,
    to: usize,
    out: &mut [u8],
) -> io::Result<()>
    requires { 22 * length cells.now < length out.old }
{
    let n = rows::put_part(cells, from, to, out);
    rt.stdout().write_all(&out[..n])
}

// "a line of cells per object": up to the next row's first cell, or to the last cell.
fn show_objects(rt: &HostRuntime, rows: &[u64], cells: &[i64], out: &mut [u8]) -> io::Result<()>
    requires { 22 * length cells.now < length out.old }
{
    for (i, first) in rows.iter().enumerate() {
        let to = rows::row_end(rows, i + 1, cells.len());
        show_row(rt, cells, *first as usize, to, out)?;
    }
    Ok(())
}

// "a line per point"
fn show_points(rt: &HostRuntime, points: &[i64], out: &mut [u8]) -> io::Result<()>
    requires { 22 * length points.now < length out.old }
{
    for point in points.chunks(4) {
        show_row(rt, point, 0, 4, out)?;
    }
    Ok(())
}

// The table behind an accepted file.
fn show_table(rt: &HostRuntime, rows: &[u64], cells: &[i64], points: &[i64]) -> io::Result<()>
    requires { (length cells.now < 8193) × (length points.now < 8193) }
{
    let mut out = rooms::line();
    show_objects(rt, rows, cells, &mut out)?;
    show_points(rt, points, &mut out)
}

pub(crate) fn show(
    rt: &HostRuntime,
    answer: Answer,
    rows: &[u64],
    cells: &[i64],
    points: &[i64],
) -> io::Result<()>
    requires { (length cells.now < 8193) × (length points.now < 8193) }
{
    match answer {
        Err(refused) => show_answer(
            rt,
            refused.reason.number(),
            refused.first,
            refused.second,
            0,
        ),
        Ok(used) => {
            show_answer(rt, 0, used.objects, used.cells, used.points)?;
            let objects = used.objects.min(rows.len());
            let count = used.cells.min(cells.len());
            let drawn = 4 * used.points.min(points.len() / 4);
            show_table(rt, &rows[..objects], &cells[..count], &points[..drawn])
        }
    }
}
