// A record through the one-shots. Each is lent, after the record, a buffer to work in for each that the call writes; `Some` says that the
// definitions give what is recorded.
ghost use Rattle.std.specs.Prelude.{◌≡◌, IfSome, OnSome};
ghost use Rattle.answers.specs.Refusals.{answer_of};
ghost use Rattle.promises.specs.OneShot as promise;
ghost use Rattle.aegis128l.specs.Cipher.{aegis128l, mac_of_aegis128l};
ghost use Rattle.recorded.specs.Records.{IsSealed, IsOpened, IsRefused, IsMaced, IsStreamed, flipped};

use crate::bytes;
use crate::list::Record;
use answers::Refusal;

// Sealing from buffer to buffer gives the ciphertext and the tag.
pub fn seals(record: &Record, buf: &mut [u8], made: &mut [u8]) -> Option<()>
    ensures { OnSome result (IsSealed «record».now) }
{
    if buf.len() != record.msg.len() || made.len() != record.tag.len() {
        return None;
    }
    oneshot::aegis128l_seal(record.key, record.nonce, record.ad, record.msg, buf, made).ok()?;
    bytes::same(buf, record.ct)?;
    bytes::same(made, record.tag)
}

// Sealing in place gives the ciphertext and the tag.
pub fn seals_in_place(record: &Record, buf: &mut [u8], made: &mut [u8]) -> Option<()>
    ensures { OnSome result (IsSealed «record».now) }
{
    if made.len() != record.tag.len() {
        return None;
    }
    bytes::lay(record.msg, buf)?;
    oneshot::aegis128l_seal_in_place(record.key, record.nonce, record.ad, buf, made).ok()?;
    bytes::same(buf, record.ct)?;
    bytes::same(made, record.tag)
}

// What opening from buffer to buffer answers, if it leaves the bytes that are recorded.
fn opening(record: &Record, buf: &mut [u8]) -> Option<Result<(), Refusal>>
    ensures { IfSome result (λ o.
        (answer_of o ≡ 0 → IsOpened «record».now) × (answer_of o ≡ 7 → IsRefused «record».now)) }
{
    if buf.len() != record.ct.len() {
        return None;
    }
    let outcome = oneshot::aegis128l_open(
        record.key,
        record.nonce,
        record.ad,
        record.ct,
        record.tag,
        buf,
    );
    bytes::same(buf, record.msg)?;
    Some(outcome)
}

// What opening in place answers, if it leaves the bytes that are recorded.
fn opening_in_place(record: &Record, buf: &mut [u8]) -> Option<Result<(), Refusal>>
    ensures { IfSome result (λ o.
        (answer_of o ≡ 0 → IsOpened «record».now) × (answer_of o ≡ 7 → IsRefused «record».now)) }
{
    bytes::lay(record.ct, buf)?;
    let outcome = oneshot::aegis128l_open_in_place(
        record.key,
        record.nonce,
        record.ad,
        buf,
        record.tag,
    );
    bytes::same(buf, record.msg)?;
    Some(outcome)
}

// The tag is accepted, and the message comes out.
pub fn opens(record: &Record, buf: &mut [u8]) -> Option<()>
    ensures { OnSome result (IsOpened «record».now) }
{
    opening(record, buf)?.ok()
}

pub fn opens_in_place(record: &Record, buf: &mut [u8]) -> Option<()>
    ensures { OnSome result (IsOpened «record».now) }
{
    opening_in_place(record, buf)?.ok()
}

// The tag is refused, and the bytes that are left are those recorded in the message's place.
pub fn refuses(record: &Record, buf: &mut [u8]) -> Option<()>
    ensures { OnSome result (IsRefused «record».now) }
{
    (opening(record, buf)? == Err(Refusal::TagDiffers)).then_some(())
}

pub fn refuses_in_place(record: &Record, buf: &mut [u8]) -> Option<()>
    ensures { OnSome result (IsRefused «record».now) }
{
    (opening_in_place(record, buf)? == Err(Refusal::TagDiffers)).then_some(())
}

// The MAC is the tag, and the check accepts it.
pub fn macs(record: &Record, made: &mut [u8]) -> Option<()>
    ensures { OnSome result (IsMaced «record».now) }
{
    if made.len() != record.tag.len() {
        return None;
    }
    oneshot::mac::aegis128l_mac(record.key, record.nonce, record.msg, made).ok()?;
    oneshot::mac::aegis128l_mac_check(record.key, record.nonce, record.msg, record.tag).ok()?;
    bytes::same(made, record.tag)
}

// The check refuses the tag with one bit changed.
pub fn mac_refuses(record: &Record, damaged: &mut [u8]) -> Option<()>
    ensures { OnSome result (promise.mac_check_of aegis128l mac_of_aegis128l
        «record».now.key.now «record».now.nonce.now «record».now.msg.now (flipped «record».now.tag.now) ≡ 7) }
{
    bytes::damage(record.tag, damaged)?;
    let outcome = oneshot::mac::aegis128l_mac_check(record.key, record.nonce, record.msg, damaged);
    (outcome == Err(Refusal::TagDiffers)).then_some(())
}

// The stream is the keystream.
pub fn streams(record: &Record, buf: &mut [u8]) -> Option<()>
    ensures { OnSome result (IsStreamed «record».now) }
{
    let keystream = record.ct;
    if buf.len() != keystream.len() {
        return None;
    }
    oneshot::stream::aegis128l_stream(record.key, record.nonce, buf).ok()?;
    bytes::same(buf, keystream)
}

// The recorded keystream, xored with the stream, gives zeros.
pub fn stream_cancels(record: &Record, buf: &mut [u8]) -> Option<()>
    ensures { OnSome result (IsStreamed «record».now) }
{
    bytes::lay(record.ct, buf)?;
    oneshot::stream::aegis128l_stream_xor(record.key, record.nonce, buf).ok()?;
    bytes::is_zero(buf).then_some(())
}
