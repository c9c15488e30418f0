// The machine at work: a state, a buffer of one block and how far it is filled. Sealing and opening go through `transform`, in place;
// associated data and a MAC's data through `absorb`, which only reads. Both go the same way: the rest of a block that has been begun, whole
// blocks, and the start of a new one.
#![tactic(auto)]

ghost use Rattle.std.specs.Prelude.{◌≡◌, ◌+◌, ◌<◌, ◌≤◌, ◌++◌, length, take, drop};
ghost use Rattle.machine.specs.Bytes.{xors};
ghost use Rattle.machine.specs.Machine as machine;
ghost use Rattle.machine.specs.Machine.{plain};
ghost use Rattle.machine.specs.Kinds.{silent};
ghost use Rattle.machine.specs.Draft.{draft_absorb};
ghost use Rattle.aegis128l.specs.Aegis128L as draft;
ghost use Rattle.aegis128l.specs.View.{state_of, mode_of};
ghost use Rattle.aegis128l_core.specs.View.{core_of};

use aegis128l::mode::Mode;
use aegis128l::state::State;
use aes::Sbox;

#[derive(Clone, Copy)]
pub struct Core {
    pub state: State,
    pub buf: [u8; 32],
    pub fill: usize,
}

pub mod stream;

// Bytes that fall in the block k from f on, encrypted or decrypted in place. Handed back is the block with their plaintext in it.
fn filled(k: [u8; 32], f: usize, mode: Mode, part: &mut [u8]) -> [u8; 32]
    requires { f + length part.old ≤ 32 }
    ensures { (result ≡ take f k ++ plain (mode_of mode) part.old part.new ++ drop (f + length part.old) k)
        × (part.new ≡ xors part.old (drop f k)) }
{
    let mut b = k;
    let e = f + part.len();
    match mode {
        Mode::Encrypt => {
            lent::put(part, &mut b[f..e]);
            lent::xor_into(&k[f..e], part);
        }
        Mode::Decrypt => {
            lent::xor_into(&k[f..e], part);
            lent::put(part, &mut b[f..e]);
        }
    }
    b
}

impl Core {
    // At the start of a block.
    pub fn start(state: State) -> Core
        ensures { core_of result ≡ machine.start draft.machine (state_of state) }
    {
        Core {
            state,
            buf: [0; 32],
            fill: 0,
        }
    }

    // The block that the next byte falls in.
    fn current(self) -> [u8; 32]
        ensures { result ≡ machine.current draft.machine (core_of self) }
    {
        if self.fill == 0 {
            self.state.keystream()
        } else {
            self.buf
        }
    }

    // A buffer that is filled so far: a full one is absorbed.
    fn settled(state: State, buf: [u8; 32], fill: usize, t: &Sbox) -> Core
        ensures { core_of result ≡ machine.settled draft.machine (state_of state) buf fill }
    {
        if fill == 32 {
            Core::start(state.absorb(&buf, t))
        } else {
            Core { state, buf, fill }
        }
    }

    // Bytes that fall in one block, in place.
    fn within(self, mode: Mode, part: &mut [u8], t: &Sbox) -> Core
        requires { (0 < length part.old) × (self.fill + length part.old ≤ 32) }
        ensures { (core_of result ≡ machine.after draft.machine (mode_of mode) (core_of self) part.old)
            × (part.new ≡ machine.out draft.machine (mode_of mode) (core_of self) part.old) }
    {
        let k = self.current();
        let e = self.fill + part.len();
        let b = filled(k, self.fill, mode, part);
        Core::settled(self.state, b, e, t)
    }

    // From the start of a block: whole blocks, and the start of a new one.
    fn blocks(state: State, mode: Mode, mc: &mut [u8], t: &Sbox) -> Core
        ensures { (core_of result ≡ machine.after draft.machine (mode_of mode) (machine.start draft.machine (state_of state)) mc.old)
            × (mc.new ≡ machine.out draft.machine (mode_of mode) (machine.start draft.machine (state_of state)) mc.old) }
    {
        let n = mc.len() / 32;
        let mut s = state;
        for k in 0..n {
            s = s.block(mode, &mut mc[32 * k..32 * k + 32], t);
        }
        let c = Core::start(s);
        if 32 * n < mc.len() {
            c.within(mode, &mut mc[32 * n..], t)
        } else {
            c
        }
    }

    // Any bytes, in place.
    pub fn transform(self, mode: Mode, mc: &mut [u8], t: &Sbox) -> Core
        requires { self.fill < 32 }
        ensures { (core_of result ≡ machine.after draft.machine (mode_of mode) (core_of self) mc.old)
            × (mc.new ≡ machine.out draft.machine (mode_of mode) (core_of self) mc.old) }
    {
        if mc.len() == 0 {
            // field by field: as one value it would be moved by memmove, which a freestanding archive may lack
            let Core { state, buf, fill } = self;
            return Core { state, buf, fill };
        }
        if self.fill == 0 {
            return Core::blocks(self.state, mode, mc, t);
        }
        let left = 32 - self.fill;
        if mc.len() <= left {
            return self.within(mode, mc, t);
        }
        let c = self.within(mode, &mut mc[..left], t);
        Core::blocks(c.state, mode, &mut mc[left..], t)
    }

    // The block that the next byte falls in, where nothing comes out.
    fn current_silent(self) -> [u8; 32]
        ensures { result ≡ machine.current (silent draft.machine) (core_of self) }
    {
        if self.fill == 0 { [0; 32] } else { self.buf }
    }

    // Bytes that fall in one block and are only absorbed.
    fn take_in(self, part: &[u8], t: &Sbox) -> Core
        requires { (0 < length part.now) × (self.fill + length part.now ≤ 32) }
        ensures { core_of result ≡ machine.after (silent draft.machine) machine.enc (core_of self) part.now }
    {
        let mut b = self.current_silent();
        let e = self.fill + part.len();
        lent::put(part, &mut b[self.fill..e]);
        Core::settled(self.state, b, e, t)
    }

    // From the start of a block: whole blocks, and the start of a new one.
    fn absorb_blocks(state: State, input: &[u8], t: &Sbox) -> Core
        ensures { core_of result ≡ machine.after (silent draft.machine) machine.enc (machine.start (silent draft.machine) (state_of state))
            input.now }
    {
        let n = input.len() / 32;
        let mut s = state;
        for k in 0..n {
            s = s.absorb(&input[32 * k..32 * k + 32], t);
        }
        let c = Core::start(s);
        if 32 * n < input.len() {
            c.take_in(&input[32 * n..], t)
        } else {
            c
        }
    }

    // Any bytes that are only absorbed.
    pub fn absorb(self, input: &[u8], t: &Sbox) -> Core
        requires { self.fill < 32 }
        ensures { core_of result ≡ machine.after (silent draft.machine) machine.enc (core_of self) input.now }
    {
        if input.len() == 0 {
            return self;
        }
        if self.fill == 0 {
            return Core::absorb_blocks(self.state, input, t);
        }
        let left = 32 - self.fill;
        if input.len() <= left {
            return self.take_in(input, t);
        }
        let c = self.take_in(&input[..left], t);
        Core::absorb_blocks(c.state, &input[left..], t)
    }

    // The end of the input: what has been filled of a block is padded with zeros and absorbed.
    pub fn close(self, t: &Sbox) -> State
        requires { self.fill < 32 }
        ensures { state_of result ≡ machine.close draft.machine (core_of self) }
    {
        if self.fill == 0 {
            return self.state;
        }
        let mut padded = [0; 32];
        lent::put(&self.buf[..self.fill], &mut padded);
        self.state.absorb(&padded, t)
    }
}

// The state after associated data.
pub fn absorb_ad(s: State, ad: &[u8], t: &Sbox) -> State
    ensures { state_of result ≡ draft_absorb draft.machine (state_of s) ad.now }
{
    Core::absorb_blocks(s, ad, t).close(t)
}
