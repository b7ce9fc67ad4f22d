// Laws alone: whole numbers as naturals above and below 0, 16-bit wrapping, floored shifts and quotients toward zero.
#![tactic(auto)]
