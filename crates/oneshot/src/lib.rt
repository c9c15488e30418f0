// The one-shots, on byte slices; crates/thin exports them. A call is done, or refused as document 01 has it. The tag size is the length of
// the tag buffer. A call asks nothing of its caller; one equation says what it answers and what every lent buffer holds.
#![tactic(auto)]

ghost use Rattle.std.specs.Prelude.{◌≡◌, true, ◌≤◌, length};
ghost use Rattle.machine.specs.Machine as machine;
ghost use Rattle.lent.specs.Lent.{same};
ghost use Rattle.answers.specs.Answers.{unless, one_shot, tag_size, limit};
ghost use Rattle.answers.specs.Refusals.{answer_of};
ghost use Rattle.promises.specs.Texts as promise;
ghost use Rattle.promises.specs.Met.{SealMet, SealInPlaceMet, OpenMet, OpenInPlaceMet};
ghost use Rattle.aegis128l.specs.Aegis128L as draft;
ghost use Rattle.aegis128l.specs.Cipher.{aegis128l};
ghost use Rattle.aegis128l.specs.View.{state_of, mode_of};

use aegis128l::SIZE;
use aegis128l::mode::Mode;
use aegis128l::state::State;
use aegis128l::tag::Lengths;
use aegis128l_core::Core;
use aes::Sbox;
use answers::Refusal;

pub mod mac;
pub mod stream;

// Whether a message of n bytes, in a buffer of `room` bytes, may be sealed or opened; a tag to be checked is not looked at yet.
fn admitted(
    key: &[u8],
    nonce: &[u8],
    ad: &[u8],
    tag: usize,
    n: usize,
    room: usize,
) -> Result<(), Refusal>
    ensures { answer_of result ≡ one_shot 16 tag (length key.now) (length nonce.now) (length ad.now) n room }
{
    answers::once::one_shot(SIZE, tag, key.len(), nonce.len(), ad.len(), n, room)
}

// A text through the machine, in place, once nothing is refused: the state at its end.
fn transformed(key: &[u8], nonce: &[u8], ad: &[u8], mode: Mode, buf: &mut [u8], t: &Sbox) -> State
    ensures { (state_of result ≡ machine.close draft.machine (machine.after draft.machine (mode_of mode)
        (machine.start draft.machine (promise.keyed aegis128l key.now nonce.now ad.now)) buf.old))
        × (buf.new ≡ machine.out draft.machine (mode_of mode)
        (machine.start draft.machine (promise.keyed aegis128l key.now nonce.now ad.now)) buf.old) }
{
    let s = aegis128l_core::absorb_ad(State::new(key, nonce, t), ad, t);
    Core::start(s).transform(mode, buf, t).close(t)
}

// The verdict on a tag: whether it is the one that a state comes to.
fn verified(state: State, lengths: Lengths, tag: &[u8], t: &Sbox) -> Result<(), Refusal>
    requires { tag_size (length tag.now) ≡ true }
    ensures { answer_of result
        ≡ unless 7 (same tag.now (draft.tag (state_of state) lengths.first lengths.second (length tag.now))) 0 }
{
    if state.verify(lengths, tag, t) {
        Ok(())
    } else {
        Err(Refusal::TagDiffers)
    }
}

// A message, in place, and its tag, once nothing is refused.
fn sealed(key: &[u8], nonce: &[u8], ad: &[u8], buf: &mut [u8], tag: &mut [u8])
    requires within_limit { (length ad.now ≤ limit) × (length buf.old ≤ limit) }
    requires tag_allowed { tag_size (length tag.old) ≡ true }
    ensures { (buf.new ≡ promise.ciphertext aegis128l key.now nonce.now ad.now buf.old)
        × (tag.new ≡ promise.seal_tag aegis128l key.now nonce.now ad.now buf.old (length tag.old)) }
{
    let lengths = Lengths {
        first: ad.len() as u64,
        second: buf.len() as u64,
    };
    let t = aes::sbox();
    let end = transformed(key, nonce, ad, Mode::Encrypt, buf, &t);
    end.tag(lengths, tag, &t);
}

// A ciphertext, in place, and the verdict on its tag, once nothing is refused.
fn opened(key: &[u8], nonce: &[u8], ad: &[u8], tag: &[u8], buf: &mut [u8]) -> Result<(), Refusal>
    requires within_limit { (length ad.now ≤ limit) × (length buf.old ≤ limit) }
    requires tag_allowed { tag_size (length tag.now) ≡ true }
    ensures { (buf.new ≡ promise.plaintext aegis128l key.now nonce.now ad.now buf.old)
        × (answer_of result
        ≡ unless 7 (same tag.now (promise.open_tag aegis128l key.now nonce.now ad.now buf.old (length tag.now))) 0) }
{
    let lengths = Lengths {
        first: ad.len() as u64,
        second: buf.len() as u64,
    };
    let t = aes::sbox();
    let end = transformed(key, nonce, ad, Mode::Decrypt, buf, &t);
    verified(end, lengths, tag, &t)
}

pub fn aegis128l_seal(
    key: &[u8],
    nonce: &[u8],
    ad: &[u8],
    msg: &[u8],
    out: &mut [u8],
    tag: &mut [u8],
) -> Result<(), Refusal>
    ensures { SealMet aegis128l key.now nonce.now ad.now msg.now out.old tag.old
        (answer_of result) out.new tag.new }
{
    let n = msg.len();
    if let Err(refusal) = admitted(key, nonce, ad, tag.len(), n, out.len()) {
        return Err(refusal);
    }
    lent::put(msg, out);
    sealed(key, nonce, ad, &mut out[..n], tag);
    Ok(())
}

pub fn aegis128l_seal_in_place(
    key: &[u8],
    nonce: &[u8],
    ad: &[u8],
    buf: &mut [u8],
    tag: &mut [u8],
) -> Result<(), Refusal>
    ensures { SealInPlaceMet aegis128l key.now nonce.now ad.now buf.old tag.old
        (answer_of result) buf.new tag.new }
{
    let n = buf.len();
    if let Err(refusal) = admitted(key, nonce, ad, tag.len(), n, n) {
        return Err(refusal);
    }
    sealed(key, nonce, ad, buf, tag);
    Ok(())
}

pub fn aegis128l_open(
    key: &[u8],
    nonce: &[u8],
    ad: &[u8],
    ct: &[u8],
    tag: &[u8],
    out: &mut [u8],
) -> Result<(), Refusal>
    ensures { OpenMet aegis128l key.now nonce.now ad.now ct.now tag.now out.old
        (answer_of result) out.new }
{
    let n = ct.len();
    if let Err(refusal) = admitted(key, nonce, ad, tag.len(), n, out.len()) {
        return Err(refusal);
    }
    lent::put(ct, out);
    let Err(refusal) = opened(key, nonce, ad, tag, &mut out[..n]) else {
        return Ok(());
    };
    lent::wipe(out, n, 0xaa);
    Err(refusal)
}

pub fn aegis128l_open_in_place(
    key: &[u8],
    nonce: &[u8],
    ad: &[u8],
    buf: &mut [u8],
    tag: &[u8],
) -> Result<(), Refusal>
    ensures { OpenInPlaceMet aegis128l key.now nonce.now ad.now buf.old tag.now
        (answer_of result) buf.new }
{
    let n = buf.len();
    if let Err(refusal) = admitted(key, nonce, ad, tag.len(), n, n) {
        return Err(refusal);
    }
    let Err(refusal) = opened(key, nonce, ad, tag, buf) else {
        return Ok(());
    };
    lent::wipe(buf, n, 0xaa);
    Err(refusal)
}
