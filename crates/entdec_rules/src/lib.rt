// What the numbers of a call on a reader are refused for: refusal 4, for one outside its range (document 01).
#![tactic(auto)]

ghost use Rattle.std.specs.Prelude.{◌≡◌};
ghost use Rattle.entcode.specs.Models.{bit, raw, num};
ghost use Rattle.entcode.specs.Rules.{ask_rule};
ghost use Rattle.refusals.specs.Inner.{refusal_of};

use refusals::Refusal;

pub fn bit_rule(lp: u32) -> Result<(), Refusal>
    ensures { refusal_of result ≡ ask_rule (bit lp) }
{
    if (1 <= lp) & (lp <= 15) {
        Ok(())
    } else {
        Err(Refusal::Number)
    }
}

pub fn bits_rule(n: u32) -> Result<(), Refusal>
    ensures { refusal_of result ≡ ask_rule (raw n) }
{
    if (1 <= n) & (n <= 25) {
        Ok(())
    } else {
        Err(Refusal::Number)
    }
}

// Every total that a u32 holds is below 2^32.
pub fn uint_rule(ft: u32) -> Result<(), Refusal>
    ensures { refusal_of result ≡ ask_rule (num ft) }
{
    if 2 <= ft {
        Ok(())
    } else {
        Err(Refusal::Number)
    }
}
