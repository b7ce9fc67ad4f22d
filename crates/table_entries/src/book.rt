// Entries of a book, table by table, none past a table's end.
ghost use Rattle.std.specs.Prelude.{◌≡◌, get_or};
ghost use Rattle.std.specs.List.{slice_get};
ghost use mathlib.Core.List.{[], flatten};
ghost use Rattle.table_entries.specs.Entries.{book_tables};

use tables::books::{Book, book_weights_run};

fn vectors_entry<
    const N: usize,
    const H: usize,
    const P: usize,
    const G: usize,
    B: Book<N, H, P, G>,
>(place: usize) -> Option<u32>
    ensures { result ≡ slice_get (flatten B.lists.vectors) place }
{
    let v = place / N;
    if v < 32 {
        Some(u32::from(B::vector_run(v)[place % N]))
    } else {
        None
    }
}

fn weights_entry<
    const N: usize,
    const H: usize,
    const P: usize,
    const G: usize,
    B: Book<N, H, P, G>,
>(place: usize) -> Option<u32>
    ensures { result ≡ slice_get (flatten B.lists.weights) place }
{
    let v = place / N;
    if v < 32 {
        Some(u32::from(book_weights_run::<N, H, P, G, B>(v)[place % N]))
    } else {
        None
    }
}

// A byte serves two places.
fn selectors_entry<
    const N: usize,
    const H: usize,
    const P: usize,
    const G: usize,
    B: Book<N, H, P, G>,
>(place: usize) -> Option<u32>
    ensures { result ≡ slice_get (flatten B.lists.selectors) place }
{
    let width = N / 2;
    let v = place / width;
    if v < 32 {
        Some(u32::from(B::selectors_run(v)[place % width]))
    } else {
        None
    }
}

// The 0 for the last place is no entry.
fn predictors_entry<
    const N: usize,
    const H: usize,
    const P: usize,
    const G: usize,
    B: Book<N, H, P, G>,
>(place: usize) -> Option<u32>
    ensures { result ≡ slice_get (flatten B.lists.predictors) place }
{
    let width = N - 1;
    if place < 2 * width {
        let pairs = B::predictors();
        Some(u32::from(pairs[2 * (place % width) + place / width]))
    } else {
        None
    }
}

// A gap is never below 0.
fn gaps_entry<const N: usize, const H: usize, const P: usize, const G: usize, B: Book<N, H, P, G>>(
    place: usize,
) -> Option<u32>
    ensures { result ≡ slice_get B.lists.gaps place }
{
    let gaps = B::gaps();
    Some(u32::from(gaps.get(place)?.unsigned_abs()))
}

// Table 0 to 4 of a book; no other has entries.
pub fn book_entry<
    const N: usize,
    const H: usize,
    const P: usize,
    const G: usize,
    B: Book<N, H, P, G>,
>(table: u32, place: usize) -> Option<u32>
    ensures { result ≡ slice_get (get_or (book_tables B.lists) table []) place }
{
    match table {
        0 => vectors_entry::<N, H, P, G, B>(place),
        1 => weights_entry::<N, H, P, G, B>(place),
        2 => selectors_entry::<N, H, P, G, B>(place),
        3 => predictors_entry::<N, H, P, G, B>(place),
        4 => gaps_entry::<N, H, P, G, B>(place),
        _ => None,
    }
}
