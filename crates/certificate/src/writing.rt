ghost use Rattle.std.specs.Prelude.{◌≡◌, ◌++◌, ◌∷◌, ◌≤◌, decimal, length, MatchResult, IfOk, IfErr};
ghost use Rattle.std.specs.Prelude.{OnErr, OnOk, string_bytes};
ghost use Rattle.std.specs.Io.KnownBytes.{Appends};
ghost use Rattle.outputs.specs.OnTheWay.{Adds};
ghost use Rattle.outputs.specs.Output.{FailsSince, TakesFront};
ghost use Rattle.certificate.specs.Lines.{cert_text, said_of};
ghost use Rattle.certificate.specs.Walk.{item_lines, step_of, walk_lines};
ghost use Rattle.certificate.specs.Words.{edge_words, ended, instance_words, place_words};
ghost use Rattle.bus_ticks.specs.Numbers.{numbers_of};
ghost use Rattle.certificate.specs.Written.{head_text, instances_text, places_text, prices_text, walk_text};

use crate::fault::CertFault;
use crate::line_end::LineEnd;
use crate::lines_lately::LinesLately;
use bus_ticks::Profile;
use control_flow::Edge;
use itoa::Buffer;
use longest_walk::{InstanceRow, Item, Longest, PlaceRow};
use outputs::{Output, OutputFault, Page, VecOutput};
use std::alloc::{AllocError, Global};
use std::str;

// Puts a number of a profile, after a blank.
fn put_price<O: Output>(out: &mut O, page: &mut Page, number: u32)
    ensures { Adds O.taken O.failures out.old page.old out.new page.new (32 ∷ decimal number) }
{
    page.put(out, b" ");
    page.put(out, Buffer::new().format(number).as_bytes());
}

fn put_prices<O: Output>(out: &mut O, page: &mut Page, numbers: &[u32])
    ensures { Adds O.taken O.failures out.old page.old out.new page.new (prices_text numbers.now) }
{
    for number in numbers {
        put_price(out, page, *number);
    }
}

fn put_head<O: Output>(out: &mut O, page: &mut Page, profile: &Profile)
    ensures { Adds O.taken O.failures out.old page.old out.new page.new
        (head_text (numbers_of profile.now)) }
{
    let numbers = profile.numbers();
    if numbers == Profile::one().numbers() {
        page.put(out, b"arcwcet certificate 1\n");
        return;
    }
    page.put(out, b"arcwcet certificate 2\nprofile");
    put_prices(out, page, &numbers);
    page.put(out, b"\n");
}

/// Adds an edge as the lines of a walk show it, `ADDRESS skip|do TO COST`, and ends the line. The cost is in
/// ticks.
///
/// # Errors
///
/// An allocation failed; the text is then as it was.
pub fn write_edge(out: &mut String, edge: &Edge) -> Result<(), AllocError>
    ensures { MatchResult result
        (λ _. string_bytes out.new ≡ string_bytes out.old ++ ended (edge_words (step_of edge.now)))
        (λ _. string_bytes out.new ≡ string_bytes out.old) }
{
    let mut line = LineEnd::new();
    line.put_edge(edge);
    let Ok(text) = str::from_utf8(line.bytes()) else {
        unreachable!()
    };
    out.push_str(text)
}

// Puts a line of a word and a number.
fn put_number<O: Output>(out: &mut O, page: &mut Page, word: &[u8], number: u64)
    requires { length word.now ≤ 100 }
    ensures { Adds O.taken O.failures out.old page.old out.new page.new (ended (word.now ++ decimal number)) }
{
    let mut line = LineEnd::new();
    line.put_decimal(number);
    line.put(word);
    page.put(out, line.bytes());
}

#[cycle(walk)]
fn put_item<O: Output>(out: &mut O, page: &mut Page, lately: &mut LinesLately, item: &Item)
    ensures { Adds O.taken O.failures out.old page.old out.new page.new (walk_text (item_lines item.now)) }
{
    match item {
        Item::Step(edge) => lately.put(out, page, edge),
        Item::Repeat(count, body) => {
            put_number(out, page, b"repeat ", u64::from(*count));
            put_items(out, page, lately, body);
            page.put(out, b"end\n");
        }
    }
}

#[cycle(walk)]
fn put_items<O: Output>(out: &mut O, page: &mut Page, lately: &mut LinesLately, items: &[Item])
    ensures { Adds O.taken O.failures out.old page.old out.new page.new (walk_text (walk_lines items.now)) }
{
    for item in items {
        // A walk may have millions of lines, none of which is wanted after a failure.
        if page.has_failed() {
            return;
        }
        put_item(out, page, lately, item);
    }
}

fn put_place<O: Output>(out: &mut O, page: &mut Page, row: &PlaceRow)
    ensures { Adds O.taken O.failures out.old page.old out.new page.new (ended (place_words row.now)) }
{
    let mut line = LineEnd::new();
    line.put_place(row);
    page.put(out, line.bytes());
}

fn put_instance<O: Output>(out: &mut O, page: &mut Page, row: &InstanceRow)
    ensures { Adds O.taken O.failures out.old page.old out.new page.new (ended (instance_words row.now)) }
{
    let mut line = LineEnd::new();
    line.put_instance(row);
    page.put(out, line.bytes());
}

fn put_places<O: Output>(out: &mut O, page: &mut Page, rows: &[PlaceRow])
    ensures { Adds O.taken O.failures out.old page.old out.new page.new (places_text rows.now) }
{
    for row in rows {
        put_place(out, page, row);
    }
}

fn put_instances<O: Output>(out: &mut O, page: &mut Page, rows: &[InstanceRow])
    ensures { Adds O.taken O.failures out.old page.old out.new page.new (instances_text rows.now) }
{
    for row in rows {
        put_instance(out, page, row);
    }
}

fn put_cert<O: Output>(out: &mut O, page: &mut Page, longest: &Longest)
    ensures { Adds O.taken O.failures out.old page.old out.new page.new (cert_text (said_of longest.now)) }
{
    put_head(out, page, &longest.profile);
    put_number(out, page, b"bound ", longest.bound);
    put_items(out, page, &mut LinesLately::new(), longest.walk.items());
    page.put(out, b"close\n");
    put_places(out, page, longest.potentials.places.items());
    put_instances(out, page, longest.potentials.instances.items());
    page.put(out, b"stop\n");
}

/// Writes the text of a greatest walk's certificate to an output, in time linear in its length. A body that
/// several repeats share is written at each of them. It takes no memory, however long the text is.
///
/// # Errors
///
/// `Failed`: the output failed. It took a front of the text then.
pub fn print_cert<O: Output>(longest: &Longest, out: &mut O) -> Result<(), OutputFault>
    ensures ok { OnOk result (Appends (O.taken out.old) (O.taken out.new) (cert_text (said_of longest.now))) }
    ensures quiet { OnOk result (O.failures out.new ≡ O.failures out.old) }
    ensures front { OnErr result
        (TakesFront (O.taken out.old) (O.taken out.new) (cert_text (said_of longest.now))) }
    ensures failed { OnErr result (FailsSince (O.failures out.old) (O.failures out.new)) }
{
    let mut page = Page::new();
    put_cert(out, &mut page, longest);
    page.finish(out)
}

/// The text of a greatest walk's certificate, in time linear in its length, as [`print_cert`] writes it.
///
/// # Errors
///
/// `Memory`: an allocation failed.
pub fn write_cert(alloc: Global, longest: &Longest) -> Result<Vec<u8>, CertFault>
    ensures text { IfOk result (λ text. text.items ≡ cert_text (said_of longest.now)) }
    ensures memory { IfErr result (λ fault. fault ≡ CertFault.Memory) }
{
    let mut out = VecOutput::with_room(alloc, 0)?;
    match print_cert(longest, &mut out) {
        Ok(()) => Ok(out.into_bytes()),
        Err(_) => Err(CertFault::Memory),
    }
}
