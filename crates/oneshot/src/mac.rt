// The MAC of document 01: the data is absorbed as associated data is, and empty data absorbs one block of zeros.
ghost use Rattle.std.specs.Prelude.{◌≡◌, ◌≤◌};
ghost use Rattle.answers.specs.Answers.{limit};
ghost use Rattle.answers.specs.Refusals.{answer_of};
ghost use Rattle.promises.specs.Texts as promise;
ghost use Rattle.promises.specs.Met.{MacMet, MacCheckMet};
ghost use Rattle.aegis128l.specs.Aegis128L as draft;
ghost use Rattle.aegis128l.specs.Cipher.{aegis128l, mac_of_aegis128l};
ghost use Rattle.aegis128l.specs.View.{state_of};

use aegis128l::SIZE;
use aegis128l::state::State;
use aegis128l::tag::Lengths;
use aes::Sbox;
use answers::Refusal;

// The state after key, nonce and data.
fn mac_state(key: &[u8], nonce: &[u8], data: &[u8], t: &Sbox) -> State
    ensures { state_of result ≡ promise.mac_state aegis128l mac_of_aegis128l (draft.init key.now nonce.now) «data».now }
{
    let s = State::new(key, nonce, t);
    if data.len() == 0 {
        return s.absorb(&[0; 32], t);
    }
    aegis128l_core::absorb_ad(s, data, t)
}

// What the length block of a MAC is made of: the lengths of its data and of its tag.
fn mac_lengths(of_data: usize, of_tag: usize) -> Lengths
    requires { (of_data ≤ limit) × (of_tag ≤ limit) }
    ensures { (result.first ≡ of_data) × (result.second ≡ of_tag) }
{
    Lengths {
        first: of_data as u64,
        second: of_tag as u64,
    }
}

pub fn aegis128l_mac(key: &[u8], nonce: &[u8], data: &[u8], tag: &mut [u8]) -> Result<(), Refusal>
    ensures { MacMet aegis128l mac_of_aegis128l key.now nonce.now «data».now tag.old
        (answer_of result) tag.new }
{
    if let Err(refusal) = answers::once::mac(SIZE, tag.len(), key.len(), nonce.len(), data.len()) {
        return Err(refusal);
    }
    let t = aes::sbox();
    let end = mac_state(key, nonce, data, &t);
    end.tag(mac_lengths(data.len(), tag.len()), tag, &t);
    Ok(())
}

pub fn aegis128l_mac_check(key: &[u8], nonce: &[u8], data: &[u8], tag: &[u8]) -> Result<(), Refusal>
    ensures { MacCheckMet aegis128l mac_of_aegis128l key.now nonce.now «data».now tag.now
        (answer_of result) }
{
    if let Err(refusal) = answers::once::mac(SIZE, tag.len(), key.len(), nonce.len(), data.len()) {
        return Err(refusal);
    }
    let t = aes::sbox();
    let end = mac_state(key, nonce, data, &t);
    crate::verified(end, mac_lengths(data.len(), tag.len()), tag, &t)
}
