// The tag: the two lengths, seven updates, and the blocks xored.
ghost use Rattle.std.specs.Prelude.{◌≡◌, true, ◌≤◌, length};
ghost use Rattle.answers.specs.Answers.{tag_size, limit};
ghost use Rattle.machine.specs.Lengths as bits;
ghost use Rattle.lent.specs.Lent.{same};
ghost use Rattle.aegis128l.specs.Aegis128L as draft;
ghost use Rattle.aegis128l.specs.View.{state_of};

use crate::state::{State, join};
use aes::{AesBlock, Sbox};

// A number as 8 bytes, little-endian.
pub fn le64(x: u64) -> [u8; 8]
    ensures { result ≡ bits.le64 x }
{
    [
        (x % 256) as u8,
        (x / 0x100 % 256) as u8,
        (x / 0x1_0000 % 256) as u8,
        (x / 0x100_0000 % 256) as u8,
        (x / 0x1_0000_0000 % 256) as u8,
        (x / 0x100_0000_0000 % 256) as u8,
        (x / 0x1_0000_0000_0000 % 256) as u8,
        (x / 0x100_0000_0000_0000 % 256) as u8,
    ]
}

// The two lengths that a tag covers, in bytes: of associated data and of a message, or of a MAC's data and of its tag.
#[derive(Clone, Copy)]
pub struct Lengths {
    pub first: u64,
    pub second: u64,
    pub ghost within_limit: { (first ≤ limit) × (second ≤ limit) },
}

// The two lengths as bits.
#[tactic(auto, unfolding(machine::specs::Lengths::length_block, lent::specs::Lent::over))]
fn length_block(lengths: Lengths) -> AesBlock
    ensures { result.bytes ≡ bits.length_block lengths.first lengths.second }
{
    let x = le64(lengths.first * 8);
    let y = le64(lengths.second * 8);
    let mut bytes = [0; 16];
    lent::put(&x, &mut bytes[..8]);
    lent::put(&y, &mut bytes[8..]);
    AesBlock { bytes }
}

impl State {
    fn finalized(self, lengths: Lengths, t: &Sbox) -> State
        ensures { state_of result ≡ draft.finalized (state_of self) lengths.first lengths.second }
    {
        let s = self.blocks;
        let x = s[2] ^ length_block(lengths);
        self.updates(7, x, x, t)
    }

    fn tag16(self) -> [u8; 16]
        ensures { result ≡ draft.tag16 (state_of self) }
    {
        let s = self.blocks;
        let x = s[0] ^ s[1] ^ s[2] ^ s[3] ^ s[4] ^ s[5] ^ s[6];
        x.bytes
    }

    fn tag32(self) -> [u8; 32]
        ensures { result ≡ draft.tag32 (state_of self) }
    {
        let s = self.blocks;
        let a = s[0] ^ s[1] ^ s[2] ^ s[3];
        let b = s[4] ^ s[5] ^ s[6] ^ s[7];
        join(a.bytes, b.bytes)
    }

    // The whole of a tag buffer, of 16 bytes or of 32.
    pub fn tag(self, lengths: Lengths, out: &mut [u8], t: &Sbox)
        requires { tag_size (length out.old) ≡ true }
        ensures { out.new ≡ draft.tag (state_of self) lengths.first lengths.second (length out.old) }
    {
        let s = self.finalized(lengths, t);
        if out.len() == 16 {
            let tag = s.tag16();
            lent::put(&tag, out);
        } else {
            lent::put(&s.tag32(), out);
        }
    }

    // Whether a tag is the one that the state comes to. It stands here since one-shots and sessions both compare.
    pub fn verify(self, lengths: Lengths, tag: &[u8], t: &Sbox) -> bool
        requires { tag_size (length tag.now) ≡ true }
        ensures { result ≡ same tag.now (draft.tag (state_of self) lengths.first lengths.second (length tag.now)) }
    {
        let n = tag.len();
        let mut expected = [0; 32];
        self.tag(lengths, &mut expected[..n], t);
        lent::tags_match(tag, &expected[..n])
    }
}
