// The tests of an inverse table that a caller lends, and of a symbol to be written with it (document 01, refusals 4,
// 5 and 8).
#![tactic(auto)]

ghost use Rattle.std.specs.Prelude.{◌≡◌, ◌≤◌, length};
ghost use Rattle.icdf.specs.Test.{falls_ok, scale_ok, icdf_ok, symbol_ok, icdf_rule, symbol_rule};
ghost use Rattle.refusals.specs.Inner.{refusal_of};

use refusals::Refusal;

// Whether the first entry is at most top, none is above the one before it, and the last is 0. Neighbours are compared
// in place: with the entry before carried along, the loop is not vectorised.
fn falls(table: &[u8], top: u32) -> bool
    requires { 1 ≤ length table.now }
    ensures { result ≡ falls_ok top table.now }
{
    let mut ok = u32::from(table[0]) <= top;
    for k in 1..table.len() {
        ok = ok & (table[k] <= table[k - 1]);
    }
    ok & (table[table.len() - 1] == 0)
}

fn scale_ok(scale: u32) -> bool
    ensures { result ≡ scale_ok scale }
{
    (1 <= scale) & (scale <= 8)
}

fn icdf_ok(table: &[u8], scale: u32) -> bool
    requires { (1 ≤ scale) × (scale ≤ 8) }
    ensures { result ≡ icdf_ok scale table.now }
{
    if table.is_empty() {
        false
    } else {
        (table.len() <= 256) & falls(table, (1u32 << scale) - 1)
    }
}

fn symbol_ok(table: &[u8], scale: u32, symbol: u32) -> bool
    requires { (1 ≤ scale) × (scale ≤ 8) }
    ensures { result ≡ symbol_ok scale table.now symbol }
{
    let k = symbol as usize;
    if k < table.len() {
        let entry = table[k];
        if k == 0 {
            u32::from(entry) < (1u32 << scale)
        } else {
            entry < table[k - 1]
        }
    } else {
        false
    }
}

// Refusals 4 and 5 of a table of a scale.
#[tactic(auto, unfolding(crate::specs::Test::icdf_rule))]
pub fn icdf_rule(table: &[u8], scale: u32) -> Result<(), Refusal>
    ensures { refusal_of result ≡ icdf_rule scale table.now }
{
    if !scale_ok(scale) {
        Err(Refusal::Number)
    } else if icdf_ok(table, scale) {
        Ok(())
    } else {
        Err(Refusal::Table)
    }
}

// Refusals 4, 5 and 8 of a symbol to be written.
#[tactic(auto, unfolding(crate::specs::Test::icdf_rule, crate::specs::Test::symbol_rule))]
pub fn symbol_rule(table: &[u8], scale: u32, symbol: u32) -> Result<(), Refusal>
    ensures { refusal_of result ≡ symbol_rule scale table.now symbol }
{
    icdf_rule(table, scale)?;
    if symbol_ok(table, scale, symbol) {
        Ok(())
    } else {
        Err(Refusal::Value)
    }
}
