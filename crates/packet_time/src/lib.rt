// How long the frames of a packet last (RFC 6716, sections 3.1 and 3.2.5).
#![tactic(auto)]

ghost use Rattle.std.specs.Prelude.{◌*◌, ◌<◌, ◌≡◌};
ghost use Rattle.framing.specs.Toc.{duration, in_time};

// One frame, in tenths of a millisecond (table 2).
fn duration_run(config: usize) -> usize
    requires { config < 32 }
    ensures { result ≡ duration config }
{
    match config {
        16 | 20 | 24 | 28 => 25,
        17 | 21 | 25 | 29 => 50,
        1 | 5 | 9 | 13 | 15 | 19 | 23 | 27 | 31 => 200,
        2 | 6 | 10 => 400,
        3 | 7 | 11 => 600,
        _ => 100,
    }
}

// Whether so many frames last at most 120 ms. None lasts more than 60 ms, none less than 2.5.
pub fn in_time(count: usize, config: usize) -> bool
    ensures { result ≡ in_time count config }
{
    if count <= 2 {
        return true;
    }
    if 31 < config {
        return true;
    }
    if 48 < count {
        return false;
    }
    count * duration_run(config) <= 1200
}
