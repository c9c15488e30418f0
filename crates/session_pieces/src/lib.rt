// Pieces: a refused one changes nothing and is not counted.
#![tactic(auto)]

ghost use Rattle.std.specs.Prelude.{◌≡◌, ◌<◌};
ghost use Rattle.lent.specs.Lent.{over};
ghost use Rattle.answers.specs.Refusals.{answer_of};
ghost use Rattle.promises.specs.Met.{SealPieceMet, SealPieceInPlaceMet, OpenPieceMet, MacPieceMet};
ghost use Rattle.aegis128l.specs.Cipher.{aegis128l};
ghost use Rattle.session.specs.View.{session_of, fed_with, out_with};

use aegis128l::mode::Mode;
use session::{Handed, Kind, Session};

// A piece goes through the machine in place.
fn transformed(s: Session, mode: Mode, buf: &mut [u8]) -> Session
    requires { s.fill < 32 }
    ensures { (session_of result ≡ fed_with mode (session_of s) buf.old)
        × (buf.new ≡ out_with mode (session_of s) buf.old) }
{
    let t = aes::sbox();
    s.with_core(s.core().transform(mode, buf, &t))
}

// And from one buffer to another, over which it is laid first.
fn transformed_into(s: Session, mode: Mode, src: &[u8], dst: &mut [u8]) -> Session
    requires { s.fill < 32 }
    ensures { (session_of result ≡ fed_with mode (session_of s) (over src.now dst.old))
        × (dst.new ≡ out_with mode (session_of s) (over src.now dst.old)) }
{
    lent::put(src, dst);
    transformed(s, mode, dst)
}

// A sealing piece writes its whole output buffer.
pub fn seal_piece(s: Session, msg: &[u8], out: &mut [u8]) -> Handed<()>
    ensures { SealPieceMet aegis128l (session_of s) msg.now out.old
        (answer_of result.outcome) (session_of result.session) out.new }
{
    let live = s.is_live(Kind::Sealing);
    match answers::pieces::seal_piece(live, msg.len(), out.len(), s.msg_len) {
        Ok(length) => Handed {
            outcome: Ok(()),
            session: transformed_into(s, Mode::Encrypt, msg, out).with_length(length),
        },
        Err(refusal) => s.refused(refusal),
    }
}

pub fn seal_piece_in_place(s: Session, buf: &mut [u8]) -> Handed<()>
    ensures { SealPieceInPlaceMet aegis128l (session_of s) buf.old
        (answer_of result.outcome) (session_of result.session) buf.new }
{
    let live = s.is_live(Kind::Sealing);
    match answers::pieces::piece(live, buf.len(), s.msg_len) {
        Ok(length) => Handed {
            outcome: Ok(()),
            session: transformed(s, Mode::Encrypt, buf).with_length(length),
        },
        Err(refusal) => s.refused(refusal),
    }
}

// The next chunk of the plaintext buffer, decrypted in place; no other byte changes.
pub fn open_piece(s: Session, ct: &[u8], plain: &mut [u8]) -> Handed<()>
    ensures { OpenPieceMet aegis128l (session_of s) ct.now plain.old
        (answer_of result.outcome) (session_of result.session) plain.new }
{
    let live = s.is_live(Kind::Opening);
    match answers::pieces::open_piece(live, plain.len(), s.room, s.written, ct.len(), s.msg_len) {
        Ok(length) => {
            let end = s.written + ct.len();
            let fed = transformed_into(s, Mode::Decrypt, ct, &mut plain[s.written..end]);
            Handed {
                outcome: Ok(()),
                session: Session {
                    written: end,
                    ..fed.with_length(length)
                },
            }
        }
        Err(refusal) => s.refused(refusal),
    }
}

pub fn mac_piece(s: Session, data: &[u8]) -> Handed<()>
    ensures { MacPieceMet aegis128l (session_of s) «data».now
        (answer_of result.outcome) (session_of result.session) }
{
    let live = s.is_live(Kind::Macing);
    match answers::pieces::piece(live, data.len(), s.msg_len) {
        Ok(length) => {
            let t = aes::sbox();
            let fed = s.with_core(s.core().absorb(data, &t));
            Handed {
                outcome: Ok(()),
                session: fed.with_length(length),
            }
        }
        Err(refusal) => s.refused(refusal),
    }
}
