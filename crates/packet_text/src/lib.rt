// What the packet lister prints for an input, put into a lent buffer.
#![tactic(auto)]

ghost use Rattle.std.specs.Prelude.{◌≡◌};
ghost use Rattle.listing.specs.Printed.{printed};
ghost use Rattle.packet_text.specs.PacketText.{packet_text};

use listing::put_refused_run;
use packet_text_accepted::put_accepted_run;

// The text of any input; 512 bytes have room for each.
pub fn packet_text(input: &[u8], out: &mut [u8; 512]) -> usize
    ensures { record { buffer = out.new; count = result } ≡
        printed (packet_text input.now) out.old }
{
    let a = packet_read::packet_read(input);
    if a.refusal == 0 {
        put_accepted_run(out, a)
    } else {
        put_refused_run(out, 0, a.refusal)
    }
}
