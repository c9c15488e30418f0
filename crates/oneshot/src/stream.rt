// The keystream, and a message under it, with no tag.
ghost use Rattle.answers.specs.Refusals.{answer_of};
ghost use Rattle.promises.specs.Met.{StreamMet, StreamXorMet};
ghost use Rattle.aegis128l.specs.Cipher.{aegis128l};

use aegis128l::SIZE;
use aegis128l::state::State;
use answers::Refusal;

pub fn aegis128l_stream(key: &[u8], nonce: &[u8], out: &mut [u8]) -> Result<(), Refusal>
    ensures { StreamMet aegis128l key.now nonce.now out.old
        (answer_of result) out.new }
{
    if let Err(refusal) = answers::once::stream(SIZE, key.len(), nonce.len()) {
        return Err(refusal);
    }
    let n = out.len();
    lent::wipe(out, n, 0);
    aegis128l_stream_xor(key, nonce, out)
}

pub fn aegis128l_stream_xor(key: &[u8], nonce: &[u8], buf: &mut [u8]) -> Result<(), Refusal>
    ensures { StreamXorMet aegis128l key.now nonce.now buf.old
        (answer_of result) buf.new }
{
    if let Err(refusal) = answers::once::stream(SIZE, key.len(), nonce.len()) {
        return Err(refusal);
    }
    let t = aes::sbox();
    aegis128l_core::stream::stream_xor(State::new(key, nonce, &t), buf, &t);
    Ok(())
}
