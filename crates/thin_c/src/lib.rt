// What the archive exports to C and Rust: each function of crate `thin`, under its own name and with its clauses. All that is exported comes out of one
// crate, so that the archive holds each function below once.
#![tactic(auto)]

ghost use Rattle.promises.specs.Met.{SealStartMet, OpenStartMet, MacStartMet, SealPieceMet, SealPieceInPlaceMet, SealFinishMet, OpenPieceMet, OpenFinishMet, AbortMet, MacPieceMet, MacFinishMet, MacFinishCheckMet};
ghost use Rattle.aegis128l.specs.Cipher.{aegis128l, mac_of_aegis128l};
ghost use Rattle.session.specs.View.{session_of};

use session::{Opened, Session};

pub mod once;

#[unsafe(no_mangle)]
pub extern "C" fn aegis128l_seal_start(
    s: &mut Session,
    key: &[u8],
    nonce: &[u8],
    ad: &[u8],
    tag_size: usize,
) -> u8
    ensures { SealStartMet aegis128l key.now nonce.now ad.now
        tag_size result (session_of s.new) }
{
    thin::aegis128l_seal_start(s, key, nonce, ad, tag_size)
}

#[unsafe(no_mangle)]
pub extern "C" fn aegis128l_open_start(
    s: &mut Session,
    key: &[u8],
    nonce: &[u8],
    ad: &[u8],
    tag_size: usize,
    room: usize,
) -> u8
    ensures { OpenStartMet aegis128l key.now nonce.now ad.now
        tag_size room result (session_of s.new) }
{
    thin::aegis128l_open_start(s, key, nonce, ad, tag_size, room)
}

#[unsafe(no_mangle)]
pub extern "C" fn aegis128l_mac_start(
    s: &mut Session,
    key: &[u8],
    nonce: &[u8],
    tag_size: usize,
) -> u8
    ensures { MacStartMet aegis128l key.now nonce.now
        tag_size result (session_of s.new) }
{
    thin::aegis128l_mac_start(s, key, nonce, tag_size)
}

#[unsafe(no_mangle)]
pub extern "C" fn aegis128l_seal_piece(s: &mut Session, msg: &[u8], out: &mut [u8]) -> u8
    ensures { SealPieceMet aegis128l (session_of s.old) msg.now out.old
        result (session_of s.new) out.new }
{
    thin::aegis128l_seal_piece(s, msg, out)
}

#[unsafe(no_mangle)]
pub extern "C" fn aegis128l_seal_piece_in_place(s: &mut Session, buf: &mut [u8]) -> u8
    ensures { SealPieceInPlaceMet aegis128l (session_of s.old) buf.old
        result (session_of s.new) buf.new }
{
    thin::aegis128l_seal_piece_in_place(s, buf)
}

#[unsafe(no_mangle)]
pub extern "C" fn aegis128l_seal_finish(s: &mut Session, tag: &mut [u8]) -> u8
    ensures { SealFinishMet aegis128l (session_of s.old) tag.old
        result (session_of s.new) tag.new }
{
    thin::aegis128l_seal_finish(s, tag)
}

#[unsafe(no_mangle)]
pub extern "C" fn aegis128l_open_piece(s: &mut Session, ct: &[u8], plain: &mut [u8]) -> u8
    ensures { OpenPieceMet aegis128l (session_of s.old) ct.now plain.old
        result (session_of s.new) plain.new }
{
    thin::aegis128l_open_piece(s, ct, plain)
}

#[unsafe(no_mangle)]
pub extern "C" fn aegis128l_open_finish(s: &mut Session, tag: &[u8], plain: &mut [u8]) -> Opened
    ensures { OpenFinishMet aegis128l (session_of s.old) tag.now plain.old
        result.answer result.count (session_of s.new) plain.new }
{
    thin::aegis128l_open_finish(s, tag, plain)
}

#[unsafe(no_mangle)]
pub extern "C" fn aegis128l_abort(s: &mut Session, plain: &mut [u8]) -> u8
    ensures { AbortMet aegis128l (session_of s.old) plain.old
        result (session_of s.new) plain.new }
{
    thin::aegis128l_abort(s, plain)
}

#[unsafe(no_mangle)]
pub extern "C" fn aegis128l_mac_piece(s: &mut Session, data: &[u8]) -> u8
    ensures { MacPieceMet aegis128l (session_of s.old) «data».now
        result (session_of s.new) }
{
    thin::aegis128l_mac_piece(s, data)
}

#[unsafe(no_mangle)]
pub extern "C" fn aegis128l_mac_finish(s: &mut Session, tag: &mut [u8]) -> u8
    ensures { MacFinishMet aegis128l mac_of_aegis128l (session_of s.old) tag.old
        result (session_of s.new) tag.new }
{
    thin::aegis128l_mac_finish(s, tag)
}

#[unsafe(no_mangle)]
pub extern "C" fn aegis128l_mac_finish_check(s: &mut Session, tag: &[u8]) -> u8
    ensures { MacFinishCheckMet aegis128l mac_of_aegis128l (session_of s.old) tag.now
        result (session_of s.new) }
{
    thin::aegis128l_mac_finish_check(s, tag)
}
