// A reader of the range coder with its packet (RFC 6716, section 4.1), for what reads many symbols: the state is
// sound as long as the reader is there, so that no function says it again.
#![tactic(auto)]

ghost use Rattle.entcode.specs.Inner.Reading.{Core};

use entcode::Dec;
use entdec_run::ec_dec_icdf8_run;

#[derive(Drop)]
pub struct Reader<'a> {
    pub packet: &'a [u8],
    pub state: Dec,
    pub ghost core: { Core packet.now state },
}

impl<'a> Reader<'a> {
    ghost use Rattle.std.specs.Prelude.{◌^◌, ◌≤◌};
    ghost use Rattle.icdf.specs.Rule.{Icdf};
    ghost use Rattle.entcode.specs.Models.{tab};
    ghost use Rattle.symbol_reader.specs.Inner.{Reads};

    // A symbol of a row of SILK: all of them have scale 8.
    pub fn symbol_run(&mut self, row: &[u8]) -> u32
        requires total_bound { self.old.state.total ≤ 2 ^ 30 }
        requires icdf { Icdf 8 row.now }
        ensures { Reads self.old (tab 8 row.now) result self.new }
    {
        let a = ec_dec_icdf8_run(self.packet, self.state, row);
        self.state = a.state;
        a.value
    }
}
