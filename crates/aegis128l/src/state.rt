// The state of eight blocks: start, update, keystream, and one block of 32 bytes.
ghost use Rattle.std.specs.Prelude.{◌≡◌, length};
ghost use Rattle.machine.specs.Bytes.{xors};
ghost use Rattle.machine.specs.Machine.{plain};
ghost use Rattle.aegis128l.specs.Aegis128L as draft;
ghost use Rattle.aegis128l.specs.View.{state_of, mode_of, joined};

use crate::mode::Mode;
use aes::{AesBlock, Sbox};

const C0: [u8; 16] = *b"\x00\x01\x01\x02\x03\x05\x08\x0d\x15\x22\x37\x59\x90\xe9\x79\x62";

const C1: [u8; 16] = *b"\xdb\x3d\x18\x55\x6d\xc2\x2f\xf1\x20\x11\x31\x42\x73\xb5\x28\xdd";

#[repr(C)]
#[derive(Clone, Copy)]
pub struct State {
    pub blocks: [AesBlock; 8],
}

// The 32 bytes of two blocks.
pub fn join(a: [u8; 16], b: [u8; 16]) -> [u8; 32]
    ensures { result ≡ joined a b }
{
    let mut bytes = [0; 32];
    lent::put(&a, &mut bytes[..16]);
    lent::put(&b, &mut bytes[16..]);
    bytes
}

impl State {
    // All from old values: a round for each block, whose input is the block before it, and for the first block the last.
    pub fn update(self, a: AesBlock, b: AesBlock, t: &Sbox) -> State
        ensures { state_of result ≡ draft.update (state_of self) a.bytes b.bytes }
    {
        let s = self.blocks;
        let mut n = s;
        for i in 0..8 {
            n[i] = s[(i + 7) % 8].round(s[i], t);
        }
        n[0] = n[0] ^ a;
        n[4] = n[4] ^ b;
        State { blocks: n }
    }

    // n updates with the same two blocks.
    pub fn updates(self, n: usize, a: AesBlock, b: AesBlock, t: &Sbox) -> State
        ensures { state_of result ≡ draft.updates n (state_of self) a.bytes b.bytes }
    {
        let mut s = self;
        for _ in 0..n {
            s = s.update(a, b, t);
        }
        s
    }

    pub fn new(key: &[u8], nonce: &[u8], t: &Sbox) -> State
        ensures { state_of result ≡ draft.init key.now nonce.now }
    {
        let k = AesBlock::from_part(key);
        let n = AesBlock::from_part(nonce);
        let s = State::loaded(k, n);
        s.updates(10, n, k, t)
    }

    fn loaded(k: AesBlock, n: AesBlock) -> State
        ensures { state_of result ≡ draft.loaded k.bytes n.bytes }
    {
        let c0 = AesBlock { bytes: C0 };
        let c1 = AesBlock { bytes: C1 };
        let kn = k ^ n;
        let k0 = k ^ c0;
        let k1 = k ^ c1;
        State {
            blocks: [kn, c1, c0, c1, kn, k0, k1, k0],
        }
    }

    pub fn keystream(self) -> [u8; 32]
        ensures { result ≡ draft.keystream (state_of self) }
    {
        let s = self.blocks;
        let a = s[6] ^ s[1] ^ (s[2] & s[3]);
        let b = s[2] ^ s[5] ^ (s[6] & s[7]);
        join(a.bytes, b.bytes)
    }

    // 32 bytes of data, a part of what was lent.
    pub fn absorb(self, part: &[u8], t: &Sbox) -> State
        requires { length part.now ≡ 32 }
        ensures { state_of result ≡ draft.absorb (state_of self) part.now }
    {
        let a = AesBlock::from_part(part);
        let b = AesBlock::from_part(&part[16..]);
        self.update(a, b, t)
    }

    // 32 bytes encrypted or decrypted in place: either way the plaintext is absorbed.
    pub fn block(self, mode: Mode, part: &mut [u8], t: &Sbox) -> State
        requires { length part.old ≡ 32 }
        ensures { (state_of result
            ≡ draft.absorb (state_of self) (plain (mode_of mode) part.old (xors part.old (draft.keystream (state_of self)))))
            × (part.new ≡ xors part.old (draft.keystream (state_of self))) }
    {
        let z = self.keystream();
        match mode {
            Mode::Encrypt => {
                let s = self.absorb(part, t);
                lent::xor_into(&z, part);
                s
            }
            Mode::Decrypt => {
                lent::xor_into(&z, part);
                self.absorb(part, t)
            }
        }
    }
}
