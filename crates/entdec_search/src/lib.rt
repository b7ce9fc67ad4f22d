// Which symbol of an inverse table a value stands for (RFC 6716, section 4.1.3.3), with the two ends of its part of the range.
#![tactic(auto)]

ghost use Rattle.std.specs.Prelude.{◌≡◌, cond, ◌*◌, ◌^◌, ◌≤◌, length};
ghost use Rattle.icdf.specs.Rule.{Icdf};
ghost use Rattle.entdec_search.specs.Inner.{part_of};

// A symbol of a table, with the two ends of its part.
#[derive(Clone, Copy)]
pub struct Part {
    pub symbol: usize,
    pub low: u32,
    pub top: u32,
}

// The first symbol whose entry, times the unit, is not above v: the end just computed is the next one's upper end.
// The table's last entry is 0 and ends the search: `low` is read a turn ahead, and no turn tests the table's length.
fn search_part(table: &[u8], scale: u32, unit: u32, v: u32, rng: u32) -> Part
    requires icdf { Icdf scale table.now }
    requires scale_bound { unit * 2 ^ scale ≤ 2 ^ 31 }
    ensures { result ≡ part_of rng unit v table.now }
{
    let mut k: usize = 0;
    let mut top = rng;
    let mut low = unit * u32::from(table[0]);
    while v < low {
        k += 1;
        top = low;
        low = unit * u32::from(table[k]);
    }
    Part {
        symbol: k,
        low,
        top,
    }
}

// One of two numbers.
fn pick(first: bool, a: u32, b: u32) -> u32
    ensures { result ≡ cond first a b }
{
    if first { a } else { b }
}

// The same for a table of two entries, without a loop or a jump: which of two symbols comes can't be guessed ahead.
fn two_part(table: &[u8], scale: u32, unit: u32, v: u32, rng: u32) -> Part
    requires icdf { Icdf scale table.now × (length table.now ≡ 2) }
    requires scale_bound { unit * 2 ^ scale ≤ 2 ^ 31 }
    ensures { result ≡ part_of rng unit v table.now }
{
    let edge = unit * u32::from(table[0]);
    let second = v < edge;
    let symbol = pick(second, 1, 0) as usize;
    let low = pick(second, 0, edge);
    let top = pick(second, edge, rng);
    Part { symbol, low, top }
}

// The symbol whose part holds v.
pub fn find_part_run(table: &[u8], scale: u32, unit: u32, v: u32, rng: u32) -> Part
    requires icdf { Icdf scale table.now }
    requires scale_bound { unit * 2 ^ scale ≤ 2 ^ 31 }
    ensures { result ≡ part_of rng unit v table.now }
{
    if table.len() == 2 {
        two_part(table, scale, unit, v, rng)
    } else {
        search_part(table, scale, unit, v, rng)
    }
}
