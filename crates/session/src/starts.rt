// The three starts. A refused one hands back a session that is over.
ghost use Rattle.std.specs.Prelude.{◌≡◌, length};
ghost use Rattle.answers.specs.Answers as answer;
ghost use Rattle.answers.specs.Refusals.{answer_of};
ghost use Rattle.promises.specs.SessionCalls as promise;
ghost use Rattle.promises.specs.Met.{SealStartMet, OpenStartMet, MacStartMet};
ghost use Rattle.promises.specs.Texts as once;
ghost use Rattle.aegis128l.specs.Cipher.{aegis128l};
ghost use Rattle.aegis128l.specs.View.{state_of};
ghost use Rattle.session.specs.View.{session_of, handed_of, mark_of, started_or_over};

use crate::{Handed, Kind, Session};
use aegis128l::SIZE;
use aegis128l::state::State;

#[tactic(auto, unfolding(promises::specs::SessionCalls::started))]
fn started(state: State, ad_len: u64, tag_size: usize, kind: Kind, room: usize) -> Session
    ensures { session_of result
        ≡ promise.started aegis128l (state_of state) ad_len tag_size (mark_of kind) room }
{
    let State { blocks } = state;
    Session {
        blocks,
        buf: [0; 32],
        fill: 0,
        ad_len,
        msg_len: 0,
        tag_size,
        mark: kind as usize,
        room,
        written: 0,
    }
}

// The state after key, nonce and associated data.
#[tactic(auto, unfolding(promises::specs::Texts::keyed))]
fn keyed(key: &[u8], nonce: &[u8], ad: &[u8]) -> State
    ensures { state_of result ≡ once.keyed aegis128l key.now nonce.now ad.now }
{
    let t = aes::sbox();
    aegis128l_core::absorb_ad(State::new(key, nonce, &t), ad, &t)
}

// Sealing and opening start alike.
fn start(
    key: &[u8],
    nonce: &[u8],
    ad: &[u8],
    tag_size: usize,
    kind: Kind,
    room: usize,
) -> Handed<()>
    ensures { handed_of result ≡ started_or_over
        (answer.start 16 tag_size (length key.now) (length nonce.now) (length ad.now))
        (promise.started aegis128l (once.keyed aegis128l key.now nonce.now ad.now)
        (length ad.now) tag_size (mark_of kind) room) }
{
    let outcome = answers::once::start(SIZE, tag_size, key.len(), nonce.len(), ad.len());
    let session = match outcome {
        Ok(()) => started(keyed(key, nonce, ad), ad.len() as u64, tag_size, kind, room),
        Err(_) => Session::ended(),
    };
    Handed { outcome, session }
}

#[tactic(auto, unfolding(promises::specs::SessionCalls::seal_start))]
pub fn seal_start(key: &[u8], nonce: &[u8], ad: &[u8], tag_size: usize) -> Handed<()>
    ensures { SealStartMet aegis128l key.now nonce.now ad.now tag_size
        (answer_of result.outcome) (session_of result.session) }
{
    start(key, nonce, ad, tag_size, Kind::Sealing, 0)
}

// `room` is the length of the plaintext buffer, which is lent at each call.
#[tactic(auto, unfolding(promises::specs::SessionCalls::open_start))]
pub fn open_start(key: &[u8], nonce: &[u8], ad: &[u8], tag_size: usize, room: usize) -> Handed<()>
    ensures { OpenStartMet aegis128l key.now nonce.now ad.now tag_size room
        (answer_of result.outcome) (session_of result.session) }
{
    start(key, nonce, ad, tag_size, Kind::Opening, room)
}

#[tactic(auto, unfolding(promises::specs::SessionCalls::mac_start))]
pub fn mac_start(key: &[u8], nonce: &[u8], tag_size: usize) -> Handed<()>
    ensures { MacStartMet aegis128l key.now nonce.now tag_size
        (answer_of result.outcome) (session_of result.session) }
{
    let outcome = answers::once::mac_start(SIZE, tag_size, key.len(), nonce.len());
    let session = match outcome {
        Ok(()) => {
            let t = aes::sbox();
            started(State::new(key, nonce, &t), 0, tag_size, Kind::Macing, 0)
        }
        Err(_) => Session::ended(),
    };
    Handed { outcome, session }
}
