// The lent rows that the fields of a frame's side indices are coded by, and the number of its spectrum's places, for
// reader and writer alike (RFC 6716, sections 4.2.7.3 to 4.2.7.7).
#![tactic(auto)]

ghost use Rattle.std.specs.Prelude.{◌≡◌, ◌+◌, ◌*◌, ◌/◌, ◌^◌, ◌<◌};
ghost use Rattle.sheet.specs.Directory.{row_of, type_row, gain_row, gain_low_row, delta_gain_row, first_index_row};
ghost use Rattle.sheet.specs.Directory.{extension_row, interpolation_row, lag_row, lag_low_row, delta_lag_row, contour_row};
ghost use Rattle.sheet.specs.Directory.{period_row, filter_row, scale_row, seed_row};
ghost use Rattle.silk.specs.Inner.Indices.{Rate, Subframes, IndexRows, Row, lag_low_start, contour_start, contour_size};
ghost use Rattle.silk.specs.IndexSyntax.{book_of};

use sheet::INDEX_ROWS;

// ---- where the row of each field starts: by the sheet's directory (docs/TABLES.md), less where the part begins that
// is lent

// Three rows, by signal type.
const GAIN: usize = 16 - INDEX_ROWS;

const DELTA_GAIN: usize = 40 - INDEX_ROWS;

// Four rows, by book and signal type.
const FIRST_INDEX: usize = 81 - INDEX_ROWS;

// Sixteen rows, eight of each book.
const RESIDUAL: usize = 209 - INDEX_ROWS;

const EXTENSION: usize = 353 - INDEX_ROWS;

const INTERPOLATION: usize = 360 - INDEX_ROWS;

const LAG: usize = 365 - INDEX_ROWS;

const DELTA_LAG: usize = 397 - INDEX_ROWS;

// Lag contours: 8 kHz with 2 and 4 subframes, else with 2 and 4.
const CONTOUR_1: usize = 418 - INDEX_ROWS;

const CONTOUR_2: usize = 421 - INDEX_ROWS;

const CONTOUR_3: usize = 432 - INDEX_ROWS;

const CONTOUR_4: usize = 444 - INDEX_ROWS;

const PERIOD: usize = 478 - INDEX_ROWS;

// The filters of 8, 16 and 32 entries start so many behind here: at 481, 489 and 505.
const FILTERS: usize = 473 - INDEX_ROWS;

const SCALE: usize = 537 - INDEX_ROWS;

// Even tables of 4, 6 and 8 parts.
const EVEN_4: usize = 543 - INDEX_ROWS;

const EVEN_6: usize = 552 - INDEX_ROWS;

const EVEN_8: usize = 558 - INDEX_ROWS;

// ---- type and gains

// Two types of an inactive frame, four of an active one.
pub fn type_row_run(rows: &[u8], active: u32) -> &[u8]
    requires lent { IndexRows rows.now }
    requires active_bound { active < 2 }
    ensures { Row (type_row active) (2 + active * 2) result.now }
{
    let start = (active * 2) as usize;
    let end = start + (2 + start);
    &rows[start..end]
}

pub fn gain_row_run(rows: &[u8], signal: u32) -> &[u8]
    requires lent { IndexRows rows.now }
    requires signal_bound { signal < 3 }
    ensures { Row (gain_row signal) 8 result.now }
{
    let start = GAIN + (signal as usize) * 8;
    &rows[start..start + 8]
}

pub fn gain_low_row_run(rows: &[u8]) -> &[u8]
    requires { IndexRows rows.now }
    ensures { Row gain_low_row 8 result.now }
{
    &rows[EVEN_8..EVEN_8 + 8]
}

pub fn delta_gain_row_run(rows: &[u8]) -> &[u8]
    requires { IndexRows rows.now }
    ensures { Row delta_gain_row 41 result.now }
{
    &rows[DELTA_GAIN..DELTA_GAIN + 41]
}

// ---- line spectrum

pub fn first_index_row_run(rows: &[u8], khz: u32, signal: u32) -> &[u8]
    requires lent { IndexRows rows.now }
    requires rate { Rate khz × (signal < 3) }
    ensures { Row (first_index_row khz signal) 32 result.now }
{
    let k = (khz / 16 * 2 + signal / 2) as usize;
    let start = FIRST_INDEX + k * 32;
    &rows[start..start + 32]
}

// Row k of both books' 16.
pub fn residual_row_run(rows: &[u8], k: usize) -> &[u8]
    requires lent { IndexRows rows.now }
    requires k_bound { k < 16 }
    ensures { Row (row_of (12 + k)) 9 result.now }
{
    let start = RESIDUAL + k * 9;
    &rows[start..start + 9]
}

pub fn extension_row_run(rows: &[u8]) -> &[u8]
    requires { IndexRows rows.now }
    ensures { Row extension_row 7 result.now }
{
    &rows[EXTENSION..EXTENSION + 7]
}

pub fn interpolation_row_run(rows: &[u8]) -> &[u8]
    requires { IndexRows rows.now }
    ensures { Row interpolation_row 5 result.now }
{
    &rows[INTERPOLATION..INTERPOLATION + 5]
}

// The number of a line spectrum's places.
pub fn order_of(khz: u32) -> usize
    ensures { result ≡ (book_of khz).order }
{
    if khz == 16 { 16 } else { 10 }
}

// ---- pitch

pub fn lag_row_run(rows: &[u8]) -> &[u8]
    requires { IndexRows rows.now }
    ensures { Row lag_row 32 result.now }
{
    &rows[LAG..LAG + 32]
}

#[tactic(auto, unfolding(silk::specs::Inner::Indices::lag_low_start))]
fn lag_low_start(khz: u32) -> usize
    ensures { result ≡ lag_low_start khz }
{
    match khz {
        8 => EVEN_4,
        12 => EVEN_6,
        _ => EVEN_8,
    }
}

// The row of a lag's low part.
pub fn lag_low_row_run(rows: &[u8], khz: u32) -> &[u8]
    requires lent { IndexRows rows.now }
    requires rate { Rate khz }
    ensures { Row (lag_low_row khz) (khz / 2) result.now }
{
    let start = lag_low_start(khz);
    &rows[start..start + (khz / 2) as usize]
}

pub fn delta_lag_row_run(rows: &[u8]) -> &[u8]
    requires { IndexRows rows.now }
    ensures { Row delta_lag_row 21 result.now }
{
    &rows[DELTA_LAG..DELTA_LAG + 21]
}

#[tactic(auto, unfolding(silk::specs::Inner::Indices::contour_start))]
fn contour_start(khz: u32, subframes: u32) -> usize
    ensures { result ≡ contour_start khz subframes }
{
    match (khz, subframes) {
        (8, 2) => CONTOUR_1,
        (8, _) => CONTOUR_2,
        (_, 2) => CONTOUR_3,
        (_, _) => CONTOUR_4,
    }
}

// How many contours there are.
#[tactic(auto, unfolding(silk::specs::Inner::Indices::contour_size))]
pub fn contour_size(khz: u32, subframes: u32) -> usize
    ensures { result ≡ contour_size khz subframes }
{
    match (khz, subframes) {
        (8, 2) => 3,
        (8, _) => 11,
        (_, 2) => 12,
        (_, _) => 34,
    }
}

pub fn contour_row_run(rows: &[u8], khz: u32, subframes: u32) -> &[u8]
    requires lent { IndexRows rows.now }
    requires rate { Rate khz × Subframes subframes }
    ensures { Row (contour_row khz subframes) (contour_size khz subframes) result.now }
{
    let start = contour_start(khz, subframes);
    &rows[start..start + contour_size(khz, subframes)]
}

pub fn period_row_run(rows: &[u8]) -> &[u8]
    requires { IndexRows rows.now }
    ensures { Row period_row 3 result.now }
{
    &rows[PERIOD..PERIOD + 3]
}

// The filters of period p: 8, 16 or 32.
pub fn filter_row_run(rows: &[u8], p: u32) -> &[u8]
    requires lent { IndexRows rows.now }
    requires p_bound { p < 3 }
    ensures { Row (filter_row p) (8 * 2 ^ p) result.now }
{
    let size = 8usize << p;
    let start = FILTERS + size;
    &rows[start..start + size]
}

pub fn scale_row_run(rows: &[u8]) -> &[u8]
    requires { IndexRows rows.now }
    ensures { Row scale_row 3 result.now }
{
    &rows[SCALE..SCALE + 3]
}

// ---- seed

pub fn seed_row_run(rows: &[u8]) -> &[u8]
    requires { IndexRows rows.now }
    ensures { Row seed_row 4 result.now }
{
    &rows[EVEN_4..EVEN_4 + 4]
}
