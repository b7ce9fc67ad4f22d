// First index and residuals of a frame's line spectrum read (RFC 6716, section 4.2.7.5), as in the crate's
// decode_indices.rs. The rows are lent by the caller, and so are the reader and the record that is filled.
#![tactic(auto)]

ghost use Rattle.std.specs.Prelude.{◌≡◌, ◌+◌, ◌*◌, ◌^◌, ◌≤◌, ◌<◌, pos, negsuc, ◌-ℤ◌, length};
ghost use Rattle.sheet.specs.Directory.{row_of};
ghost use Rattle.symbol_reader.specs.Inner.{Along};
ghost use Rattle.tree.specs.Inner.Growth.{of_symbols};
ghost use Rattle.silk.specs.Inner.Indices.{IndexRows, Rate};
ghost use Rattle.silk.specs.IndexSyntax.{residual, residuals, spectrum};

use index_layout::{extension_row_run, first_index_row_run, order_of, residual_row_run};
use nlsf_unpack::{residual_pick_run, selectors_run};
use silk::Indices;
use symbol_reader::Reader;

// ---- one residual

// Symbol 0, an extension taken away, less 4.
fn lowered(extension: u32) -> i8
    requires { extension < 7 }
    ensures { result ≡ negsuc (3 + extension) }
{
    -4 - (extension as i8)
}

// Symbol 8, an extension added, less 4.
fn raised(extension: u32) -> i8
    requires { extension < 7 }
    ensures { result ≡ pos (4 + extension) }
{
    (4 + extension) as i8
}

// A symbol between, less 4.
fn centred(v: u32) -> i8
    requires { v < 9 }
    ensures { result ≡ pos v -ℤ pos 4 }
{
    (v as i8) - 4
}

// A residual of row k of both books' 16.
fn residual_index(r: &mut Reader, rows: &[u8], k: usize) -> i8
    requires few { r.old.state.total ≤ 2 ^ 29 }
    requires rows { IndexRows rows.now }
    requires k_bound { k < 16 }
    ensures { Along r.old (residual (row_of (12 + k))) (of_symbols 2) result r.new }
{
    match r.symbol_run(residual_row_run(rows, k)) {
        0 => lowered(r.symbol_run(extension_row_run(rows))),
        8 => raised(r.symbol_run(extension_row_run(rows))),
        v => centred(v),
    }
}

// ---- all of them

// A residual for each of n places.
fn residual_indices(
    r: &mut Reader,
    rows: &[u8],
    x: &mut Indices,
    selectors: &[u8],
    khz: u32,
    n: usize,
)
    requires few { r.old.state.total ≤ 2 ^ 28 }
    requires rows { IndexRows rows.now }
    requires rate { Rate khz × (n ≤ 2 * length selectors.now) × (n ≤ 16) }
    ensures { Along r.old (residuals khz selectors.now n 0 x.old) (of_symbols 32) x.new r.new }
{
    let base = (khz / 16 * 8) as usize;
    for i in 0..n {
        let k = residual_pick_run(selectors, i);
        x.nlsf[i + 1] = residual_index(r, rows, base + k);
    }
}

pub fn spectrum_run(r: &mut Reader, rows: &[u8], x: &mut Indices, khz: u32, signal: u32)
    requires few { r.old.state.total ≤ 2 ^ 27 }
    requires rows { IndexRows rows.now }
    requires rate { Rate khz × (signal < 3) }
    ensures { Along r.old (spectrum khz signal x.old) (of_symbols 33) x.new r.new }
{
    let first = r.symbol_run(first_index_row_run(rows, khz, signal));
    x.nlsf[0] = first as i8;
    let s = selectors_run(khz, first);
    residual_indices(r, rows, x, &s, khz, order_of(khz));
}
