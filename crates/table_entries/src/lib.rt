// One exported lookup: any entry of any constant, for a comparison from outside.
#![tactic(auto)]

ghost use Rattle.std.specs.Prelude.{◌≡◌, [], get_or};
ghost use Rattle.std.specs.List.{slice_get};
ghost use Rattle.table_entries.specs.Entries.{entry_of, row_tables};

use book::book_entry;
use tables::books::{Narrow, Wide};
use tables::rows::{header_rows, index_rows, pulse_rows};

mod book; // book.rt: entries of a book

// What tells C that there is no such entry.
const NO_ENTRY: u32 = 65536;

fn byte_at(t: &[u8], place: usize) -> Option<u32>
    ensures { result ≡ slice_get t.now place }
{
    Some(u32::from(*t.get(place)?))
}

// Table 0 to 2 of the rows; no other has entries.
fn row_entry(table: u32, place: usize) -> Option<u32>
    ensures { result ≡ slice_get (get_or row_tables table []) place }
{
    match table {
        0 => byte_at(&header_rows(), place),
        1 => byte_at(&index_rows(), place),
        2 => byte_at(&pulse_rows(), place),
        _ => None,
    }
}

// The entry of a table by its number: 0 to 2 the rows of header, indices and pulses; 3 to 7 the narrow book's
// vectors, weights, selectors, predictors and gaps; 8 to 12 those of the wide book. 65,536 past a table's end, and
// for any other number.
#[unsafe(no_mangle)]
pub extern "C" fn tg_table_entry(table: u32, place: usize) -> u32
    ensures { result ≡ entry_of table place }
{
    let entry = match table {
        0..=2 => row_entry(table, place),
        3..=7 => book_entry::<10, 5, 20, 11, Narrow>(table - 3, place),
        _ => book_entry::<16, 8, 32, 17, Wide>(table - 8, place),
    };
    entry.unwrap_or(NO_ENTRY)
}
