// Whether the frame lister's input is whole, and what is printed of one that is not.
#![tactic(auto)]

ghost use Rattle.std.specs.Prelude.{◌≤◌, ◌≡◌, length};
ghost use Rattle.numerals.specs.Inner.{Put};
ghost use Rattle.listing.specs.Lines.{refused_text};
ghost use Rattle.lister_text_input.specs.ListerInput.{whole as whole_of};

use sections::byte_at;

// Count 7 first, and nothing cut short or left over.
pub fn whole(input: &[u8]) -> bool
    ensures { result ≡ whole_of input.now }
{
    let packet = 256 * byte_at(input, 8) + byte_at(input, 9);
    (byte_at(input, 0) == 7) & (input.len() == 10 + packet)
}

// Refusal 9.
pub fn put_cut_run(out: &mut [u8]) -> usize
    requires { 15 ≤ length out.old }
    ensures { Put 15 out.old 0 (refused_text 9) out.new result }
{
    listing::put_refused_run(out, 0, 9)
}
