// The states of a shuffled run (02, N13: "Marsaglia's xorshift32"), in shifts, masks and xor on 32 bits. It stands on no other crate.
#![tactic(auto)]

ghost use Rattle.std.specs.Prelude.{◌≡◌};
ghost use Rattle.shuffling.specs.Shuffle.{moved_on};

// The bits that a shift left by 13, and by 5, keeps within 32; a mask drops the others before the shift.
const KEPT_BY_13: u32 = 0x0007_ffff;

const KEPT_BY_5: u32 = 0x07ff_ffff;

// The next state: xored with itself shifted left 13, then right 17, then left 5. State 0, which is that of the fixed order, stays 0 and is not
// computed.
pub fn moved_on(state: u32) -> u32
    ensures { result ≡ moved_on state }
{
    if state == 0 {
        return 0;
    }
    let first = state ^ ((state & KEPT_BY_13) << 13);
    let second = first ^ (first >> 17);
    second ^ ((second & KEPT_BY_5) << 5)
}
