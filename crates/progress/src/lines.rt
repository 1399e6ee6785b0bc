ghost use Rattle.std.specs.Prelude.{◌≡◌, ◌≤◌, ◌-◌, ◌^◌, map};
ghost use Rattle.std.specs.List.{range_with_len};
ghost use Rattle.outputs.specs.OnTheWay.{Adds};
ghost use Rattle.progress.specs.Shown.{Shows, TakesLine, begun, reading_line, writing_line};

use itoa::Buffer;
use outputs::{Output, Page};

// How many bytes are written from one line to the next.
const STRETCH_BYTES: u64 = 16_777_216;

fn put_reading<E: Output>(page: &mut Page, name: &str, err: &mut E)
    ensures { Adds E.taken E.failures err.old page.old err.new page.new (reading_line name.now) }
{
    page.put(err, b"reading ");
    page.put(err, name.as_bytes());
    page.put(err, b"\n");
}

/// Shows that a file of the name is about to be read: `reading `, the name, and a line feed. If the output
/// fails, it took a front of the line.
pub fn show_reading<E: Output>(name: &str, err: &mut E)
    ensures { TakesLine E.taken E.failures err.old err.new (reading_line name.now) }
{
    let mut page = Page::new();
    put_reading(&mut page, name, err);
    let _ = page.finish(err);
}

fn put_writing<E: Output>(page: &mut Page, stretch: u64, err: &mut E)
    requires { stretch ≤ 2 ^ 40 }
    ensures { Adds E.taken E.failures err.old page.old err.new page.new (writing_line stretch) }
{
    page.put(err, b"writing: ");
    page.put(err, Buffer::new().format(16 * stretch).as_bytes());
    page.put(err, b" MiB\n");
}

// Shows that a stretch begins.
fn show_writing<E: Output>(stretch: u64, err: &mut E)
    requires { stretch ≤ 2 ^ 40 }
    ensures { TakesLine E.taken E.failures err.old err.new (writing_line stretch) }
{
    let mut page = Page::new();
    put_writing(&mut page, stretch, err);
    let _ = page.finish(err);
}

/// How many stretches are begun, after so many bytes.
pub(crate) fn begun(bytes: u64) -> u64
    ensures is { result ≡ begun bytes }
    ensures few { result ≤ 2 ^ 40 }
{
    bytes.div_ceil(STRETCH_BYTES)
}

/// Shows that each stretch begins from the first on to that before the last.
pub(crate) fn show_stretches<E: Output>(first: u64, last: u64, err: &mut E)
    requires { last ≤ 2 ^ 40 }
    ensures { Shows E.taken E.failures err.old err.new
        (map writing_line (range_with_len first (last - first))) }
{
    for stretch in first..last {
        show_writing(stretch, err);
    }
}
