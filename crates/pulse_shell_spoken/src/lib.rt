// Which splits of a block have pulses, and say something (RFC 6716, section 4.2.7.8.3).
#![tactic(auto)]

ghost use Rattle.std.specs.Prelude.{◌≡◌, cond, ◌+◌, ◌<◌, ◌≤◌, eqb, length};
ghost use Rattle.silk.specs.PulseSyntax.{total};
ghost use Rattle.pulse_shell_splits.specs.Inner.{parts_of};
ghost use Rattle.pulse_shell_spoken.specs.Inner.{spoken, Sized, Gathered};

// How many splits have pulses, n before one of c pulses.
fn counted(n: usize, c: u8) -> usize
    requires { n < 15 }
    ensures { result ≡ cond (eqb c 0) n (n + 1) }
{
    if c == 0 { n } else { n + 1 }
}

// How many splits of p pulses in 16 places have pulses. Of each, in their order: where its row starts, all of its
// pulses, and those in its left half. One that has none is stored too, and the next takes its place: which ones have
// pulses can't be guessed ahead, and a jump on it would cost more. The arrays are lent, since a struct of them would
// be copied.
pub fn spoken_of_run(start: &mut [usize], all: &mut [u8], left: &mut [u8], x: &[u8], p: u8) -> usize
    requires sized { Sized start.old all.old left.old }
    requires x_len { (length x.now ≡ 16) × (p ≤ 16) × (total x.now ≡ p) }
    ensures { Gathered (spoken (parts_of 4 x.now)) start.new all.new left.new result }
{
    let tables = [3u8, 2, 1, 0, 0, 1, 0, 0, 2, 1, 0, 0, 1, 0, 0];
    let s = pulse_shell_splits::splits_of_run(x, p);
    let mut n: usize = 0;
    for k in 0..15 {
        let c = s.all[k];
        start[n] = pulse_row_places::split_start_run(usize::from(tables[k]), usize::from(c));
        all[n] = c;
        left[n] = s.left[k];
        n = counted(n, c);
    }
    n
}
