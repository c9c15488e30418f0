// All that is exported to C and Rust (crate thin_c exports it): the one-shots (once.rt), and here the thin form of sessions: the caller lends its
// session, and each call changes it in place. Each calls the function by value, and promises of the lent session what that one promises of the one
// that it hands back. C is told the answer's number.
#![tactic(auto)]

ghost use Rattle.std.specs.Prelude.{◌≡◌};
ghost use Rattle.promises.specs.Met.{SealStartMet, OpenStartMet, MacStartMet, SealPieceMet, SealPieceInPlaceMet, SealFinishMet, OpenPieceMet, OpenFinishMet, AbortMet, MacPieceMet, MacFinishMet, MacFinishCheckMet};
ghost use Rattle.aegis128l.specs.Cipher.{aegis128l, mac_of_aegis128l};
ghost use Rattle.session.specs.View.{session_of};

use answers::Refusal;
use session::{Handed, Opened, Session};

pub mod once;

// The session that a call hands back goes on in the lent one; what is left is the outcome.
fn kept<T>(handed: Handed<T>, s: &mut Session) -> Result<T, Refusal>
    ensures { (result ≡ handed.outcome) × (s.new ≡ handed.session) }
{
    let Handed { outcome, session } = handed;
    *s = session;
    outcome
}

// The starts only write the lent session: what it held does not matter.
pub fn aegis128l_seal_start(
    s: &mut Session,
    key: &[u8],
    nonce: &[u8],
    ad: &[u8],
    tag_size: usize,
) -> u8
    ensures { SealStartMet aegis128l key.now nonce.now ad.now
        tag_size result (session_of s.new) }
{
    answers::answer(kept(session::starts::seal_start(key, nonce, ad, tag_size), s))
}

// `room` is the length of the plaintext buffer, which is lent at each call.
pub fn aegis128l_open_start(
    s: &mut Session,
    key: &[u8],
    nonce: &[u8],
    ad: &[u8],
    tag_size: usize,
    room: usize,
) -> u8
    ensures { OpenStartMet aegis128l key.now nonce.now ad.now
        tag_size room result (session_of s.new) }
{
    answers::answer(kept(
        session::starts::open_start(key, nonce, ad, tag_size, room),
        s,
    ))
}

pub fn aegis128l_mac_start(s: &mut Session, key: &[u8], nonce: &[u8], tag_size: usize) -> u8
    ensures { MacStartMet aegis128l key.now nonce.now
        tag_size result (session_of s.new) }
{
    answers::answer(kept(session::starts::mac_start(key, nonce, tag_size), s))
}

pub fn aegis128l_seal_piece(s: &mut Session, msg: &[u8], out: &mut [u8]) -> u8
    ensures { SealPieceMet aegis128l (session_of s.old) msg.now out.old
        result (session_of s.new) out.new }
{
    answers::answer(kept(session_pieces::seal_piece(*s, msg, out), s))
}

pub fn aegis128l_seal_piece_in_place(s: &mut Session, buf: &mut [u8]) -> u8
    ensures { SealPieceInPlaceMet aegis128l (session_of s.old) buf.old
        result (session_of s.new) buf.new }
{
    answers::answer(kept(session_pieces::seal_piece_in_place(*s, buf), s))
}

pub fn aegis128l_seal_finish(s: &mut Session, tag: &mut [u8]) -> u8
    ensures { SealFinishMet aegis128l (session_of s.old) tag.old
        result (session_of s.new) tag.new }
{
    answers::answer(kept(session_finishes::seal_finish(*s, tag), s))
}

pub fn aegis128l_open_piece(s: &mut Session, ct: &[u8], plain: &mut [u8]) -> u8
    ensures { OpenPieceMet aegis128l (session_of s.old) ct.now plain.old
        result (session_of s.new) plain.new }
{
    answers::answer(kept(session_pieces::open_piece(*s, ct, plain), s))
}

pub fn aegis128l_open_finish(s: &mut Session, tag: &[u8], plain: &mut [u8]) -> Opened
    ensures { OpenFinishMet aegis128l (session_of s.old) tag.now plain.old
        result.answer result.count (session_of s.new) plain.new }
{
    match kept(session_finishes::open_finish(*s, tag, plain), s) {
        Ok(count) => Opened {
            answer: answers::DONE,
            count,
        },
        Err(refusal) => Opened {
            answer: refusal.number(),
            count: 0,
        },
    }
}

pub fn aegis128l_abort(s: &mut Session, plain: &mut [u8]) -> u8
    ensures { AbortMet aegis128l (session_of s.old) plain.old
        result (session_of s.new) plain.new }
{
    answers::answer(kept(session_finishes::abort(*s, plain), s))
}

pub fn aegis128l_mac_piece(s: &mut Session, data: &[u8]) -> u8
    ensures { MacPieceMet aegis128l (session_of s.old) «data».now
        result (session_of s.new) }
{
    answers::answer(kept(session_pieces::mac_piece(*s, data), s))
}

pub fn aegis128l_mac_finish(s: &mut Session, tag: &mut [u8]) -> u8
    ensures { MacFinishMet aegis128l mac_of_aegis128l (session_of s.old) tag.old
        result (session_of s.new) tag.new }
{
    answers::answer(kept(session_finishes::mac_finish(*s, tag), s))
}

pub fn aegis128l_mac_finish_check(s: &mut Session, tag: &[u8]) -> u8
    ensures { MacFinishCheckMet aegis128l mac_of_aegis128l (session_of s.old) tag.now
        result (session_of s.new) }
{
    answers::answer(kept(session_finishes::mac_finish_check(*s, tag), s))
}
