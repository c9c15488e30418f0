// The one-shots, which crate thin_c exports beside the sessions.
ghost use Rattle.promises.specs.Met.{SealMet, SealInPlaceMet, OpenMet, OpenInPlaceMet, StreamMet, StreamXorMet, MacMet, MacCheckMet};
ghost use Rattle.aegis128l.specs.Cipher.{aegis128l, mac_of_aegis128l};

pub fn aegis128l_seal(
    key: &[u8],
    nonce: &[u8],
    ad: &[u8],
    msg: &[u8],
    out: &mut [u8],
    tag: &mut [u8],
) -> u8
    ensures { SealMet aegis128l key.now nonce.now ad.now msg.now out.old tag.old
        result out.new tag.new }
{
    answers::answer(oneshot::aegis128l_seal(key, nonce, ad, msg, out, tag))
}

pub fn aegis128l_seal_in_place(
    key: &[u8],
    nonce: &[u8],
    ad: &[u8],
    buf: &mut [u8],
    tag: &mut [u8],
) -> u8
    ensures { SealInPlaceMet aegis128l key.now nonce.now ad.now buf.old tag.old
        result buf.new tag.new }
{
    answers::answer(oneshot::aegis128l_seal_in_place(key, nonce, ad, buf, tag))
}

pub fn aegis128l_open(
    key: &[u8],
    nonce: &[u8],
    ad: &[u8],
    ct: &[u8],
    tag: &[u8],
    out: &mut [u8],
) -> u8
    ensures { OpenMet aegis128l key.now nonce.now ad.now ct.now tag.now out.old
        result out.new }
{
    answers::answer(oneshot::aegis128l_open(key, nonce, ad, ct, tag, out))
}

pub fn aegis128l_open_in_place(
    key: &[u8],
    nonce: &[u8],
    ad: &[u8],
    buf: &mut [u8],
    tag: &[u8],
) -> u8
    ensures { OpenInPlaceMet aegis128l key.now nonce.now ad.now buf.old tag.now
        result buf.new }
{
    answers::answer(oneshot::aegis128l_open_in_place(key, nonce, ad, buf, tag))
}

pub fn aegis128l_mac(key: &[u8], nonce: &[u8], data: &[u8], tag: &mut [u8]) -> u8
    ensures { MacMet aegis128l mac_of_aegis128l key.now nonce.now «data».now tag.old
        result tag.new }
{
    answers::answer(oneshot::mac::aegis128l_mac(key, nonce, data, tag))
}

pub fn aegis128l_mac_check(key: &[u8], nonce: &[u8], data: &[u8], tag: &[u8]) -> u8
    ensures { MacCheckMet aegis128l mac_of_aegis128l key.now nonce.now «data».now tag.now
        result }
{
    answers::answer(oneshot::mac::aegis128l_mac_check(key, nonce, data, tag))
}

pub fn aegis128l_stream(key: &[u8], nonce: &[u8], out: &mut [u8]) -> u8
    ensures { StreamMet aegis128l key.now nonce.now out.old
        result out.new }
{
    answers::answer(oneshot::stream::aegis128l_stream(key, nonce, out))
}

pub fn aegis128l_stream_xor(key: &[u8], nonce: &[u8], buf: &mut [u8]) -> u8
    ensures { StreamXorMet aegis128l key.now nonce.now buf.old
        result buf.new }
{
    answers::answer(oneshot::stream::aegis128l_stream_xor(key, nonce, buf))
}
