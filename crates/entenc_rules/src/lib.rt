// What the numbers of a call on a writer are refused for (document 01): refusal 4 as for a reader's, and 8 for a value that cannot be
// written.
#![tactic(auto)]

ghost use Rattle.std.specs.Prelude.{◌≡◌};
ghost use Rattle.entcode.specs.Models.{bit, raw, num};
ghost use Rattle.entcode.specs.Rules.{say_rule};
ghost use Rattle.refusals.specs.Inner.{refusal_of};

use refusals::Refusal;

pub fn bit_rule(v: u32, lp: u32) -> Result<(), Refusal>
    ensures { refusal_of result ≡ say_rule (bit lp) v }
{
    entdec_rules::bit_rule(lp)?;
    if v <= 1 { Ok(()) } else { Err(Refusal::Value) }
}

pub fn bits_rule(v: u32, n: u32) -> Result<(), Refusal>
    ensures { refusal_of result ≡ say_rule (raw n) v }
{
    entdec_rules::bits_rule(n)?;
    if v < (1u32 << n) {
        Ok(())
    } else {
        Err(Refusal::Value)
    }
}

pub fn uint_rule(v: u32, ft: u32) -> Result<(), Refusal>
    ensures { refusal_of result ≡ say_rule (num ft) v }
{
    entdec_rules::uint_rule(ft)?;
    if v < ft { Ok(()) } else { Err(Refusal::Value) }
}
