// The keystream over a buffer: the message is never fed back, zeros are.
ghost use Rattle.std.specs.Prelude.{◌≡◌, ◌≤◌, length};
ghost use Rattle.machine.specs.Bytes.{xors, zeros};
ghost use Rattle.machine.specs.Kinds.{stream_xor};
ghost use Rattle.aegis128l.specs.Aegis128L as draft;
ghost use Rattle.aegis128l.specs.View.{state_of};

use aegis128l::state::State;
use aes::Sbox;

// One block of keystream over at most 32 bytes.
fn over_block(s: State, part: &mut [u8], t: &Sbox) -> State
    requires { length part.old ≤ 32 }
    ensures { (state_of result ≡ draft.absorb (state_of s) (zeros 32))
        × (part.new ≡ xors part.old (draft.keystream (state_of s))) }
{
    lent::xor_into(&s.keystream(), part);
    s.absorb(&[0; 32], t)
}

// Any bytes, in place.
pub fn stream_xor(state: State, buf: &mut [u8], t: &Sbox)
    ensures { buf.new ≡ stream_xor draft.machine (state_of state) buf.old }
{
    let n = buf.len() / 32;
    let mut s = state;
    for k in 0..n {
        s = over_block(s, &mut buf[32 * k..32 * k + 32], t);
    }
    if 32 * n < buf.len() {
        over_block(s, &mut buf[32 * n..], t);
    }
}
