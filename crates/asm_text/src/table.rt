ghost use Rattle.std.specs.Prelude.{◌≡◌, ◌<◌, [], length, map, option_map, slice_index_or};
ghost use Rattle.std.specs.List.{find};
ghost use Rattle.std.specs.Str.{bytes_eq};
ghost use Rattle.asm_text.specs.Registers.{name_of, named_in};

// Whether a text is this name. Most names differ in their last byte.
fn is_text(text: &[u8], name: &[u8]) -> bool
    ensures { result ≡ bytes_eq text.now name.now }
{
    if text.last() != name.last() {
        return false;
    }
    text == name
}

fn first_row<'a, 'b, T>(table: &'a [(&'b [u8], T)], text: &[u8]) -> Option<&'a (&'b [u8], T)>
    ensures { option_map (λ row. row.now) result ≡ find (λ row. bytes_eq text.now row.0.now) table.now }
{
    table.iter().find(|row| is_text(text, row.0))
}

/// What a text names in a table of names.
pub(crate) fn named_in<T: Copy>(table: &[(&[u8], T)], text: &[u8]) -> Option<T>
    ensures { result ≡ named_in (map name_of table.now) text.now }
{
    match first_row(table, text) {
        Some(row) => Some(row.1),
        None => None,
    }
}

/// The name in a row of a table of names.
pub(crate) fn name_at<'a, T>(table: &[(&'a [u8], T)], row: u32) -> &'a [u8]
    requires { row < length table.now }
    ensures { result.now ≡ slice_index_or (map (λ r. r.0.now) table.now) row [] }
{
    table[row as usize].0
}
