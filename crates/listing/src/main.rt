//! The listing program: a model and a file from standard input, 65,536 bytes together at most; the answer, a line of
//! cells per object and a line per point to standard output.
#![tactic(auto)]

ghost use Rattle.std.specs.Prelude.{◌≤◌, length, IfOk};

mod rooms;
mod shown;

use std::io;
use std::io::Read;

// The input's model and file, read into the program's rooms.
fn list_file(rt: &HostRuntime, model: &[u8], file: &[u8]) -> io::Result<()> {
    let mut text = rooms::text();
    let mut marks = [0u8; 576];
    let mut rows = [0u64; 1024];
    let mut cells = [0i64; 8192];
    let mut points = [0i64; 8192];
    let mut index = [0u64; 4096];
    let answer = read::read(
        model,
        file,
        &mut text,
        &mut marks,
        &mut rows,
        &mut cells,
        &mut points,
        &mut index,
        1999,
    );
    shown::show(rt, answer, &rows, &cells, &points)
}

// "65,536 bytes together at most (else it answers 1 0 0 0)"
fn list(rt: &HostRuntime, input: &[u8]) -> io::Result<()> {
    if 65536 < input.len() {
        return shown::show_answer(rt, 1, 0, 0, 0);
    }
    let size = listing_lines::parts::model_size(input);
    list_file(rt, &input[..size], &input[size..])
}

// As many bytes of standard input as the room has, or all that there are, and how many.
fn read_full(rt: &HostRuntime, room: &mut [u8]) -> io::Result<usize>
    ensures { IfOk result (λ n. n ≤ length room.old) }
{
    let mut from = rt.stdin();
    let mut n = 0;
    // By hand: `read_exact` fails at a shorter input, and `read_to_end` wants a Vec; memory is fixed here.
    while n < room.len() {
        let more = from.read(&mut room[n..])?;
        if more == 0 {
            return Ok(n);
        }
        n += more;
    }
    Ok(n)
}

fn main(rt: HostRuntime) -> io::Result<()> {
    let mut input = [0u8; 65537];
    let n = read_full(&rt, &mut input)?;
    list(&rt, &input[..n])
}
