// The sum of gaps, and the gap set's rule (document 01).
ghost use Rattle.std.specs.Prelude.{◌≡◌, ◌+◌, ◌≤◌, length};
ghost use Rattle.nlsf_stabilize.specs.Inner.{ruled_sum, sum_of};

// The sum of gaps that meet the gap set's rule for a vector of n values.
pub fn ruled_sum_run(g: &[i16], n: usize) -> Option<i32>
    requires { (length g.now ≡ n + 1) × (n ≤ 16) }
    ensures { result ≡ sum_of (ruled_sum n g.now) }
{
    let mut none = true;
    let mut sum: i32 = 0;
    for gap in g {
        none = none & (0 <= *gap);
        sum += i32::from(*gap);
    }
    if none & ((1 <= g[n]) & (sum <= 32768)) {
        Some(sum)
    } else {
        None
    }
}
