// A record of each kind, replayed. None says that it differs from what is recorded; else how many cuttings there were beside the one-shots.
ghost use Rattle.std.specs.Prelude.{◌≡◌, length, OnSome};
ghost use Rattle.recorded.specs.Records.{IsSealed, IsOpened, IsRefused, IsMaced, IsStreamed};
ghost use Rattle.vectors.specs.Walk.{Holds};

use cuttings::Cuttings;
use recorded::list::{Kind, LONGEST, LONGEST_TAG, Short};
use recorded::oneshots;

// Each call gets buffers of zeros: one that still held the tag of the call before would hide a call that writes none.
fn text_room() -> [u8; LONGEST]
    ensures { length result ≡ 512 }
{
    [0; LONGEST]
}

fn tag_room() -> [u8; LONGEST_TAG]
    ensures { length result ≡ 32 }
{
    [0; LONGEST_TAG]
}

fn seal(short: &Short) -> Option<Cuttings>
    ensures { OnSome result (IsSealed short.now.parts × IsOpened short.now.parts) }
{
    let record = &short.parts;
    let msg_len = record.msg.len();
    let ct_len = record.ct.len();
    let tag_len = record.tag.len();
    oneshots::seals(
        record,
        &mut text_room()[..msg_len],
        &mut tag_room()[..tag_len],
    )?;
    oneshots::seals_in_place(
        record,
        &mut text_room()[..msg_len],
        &mut tag_room()[..tag_len],
    )?;
    oneshots::opens(record, &mut text_room()[..ct_len])?;
    oneshots::opens_in_place(record, &mut text_room()[..ct_len])?;
    if msg_len > cuttings::LONGEST {
        return Some(Cuttings { count: 0 });
    }
    let sealings = cuttings::sealing::cuttings(
        record,
        &mut text_room()[..msg_len],
        &mut tag_room()[..tag_len],
    )?;
    let openings = cuttings::opening::cuttings(
        record,
        &mut tag_room()[..tag_len],
        &mut text_room()[..ct_len],
    )?;
    (openings == sealings).then_some(sealings)
}

fn refused(short: &Short) -> Option<Cuttings>
    ensures { OnSome result (IsRefused short.now.parts) }
{
    let record = &short.parts;
    let ct_len = record.ct.len();
    oneshots::refuses(record, &mut text_room()[..ct_len])?;
    oneshots::refuses_in_place(record, &mut text_room()[..ct_len])?;
    Some(Cuttings { count: 0 })
}

fn mac(short: &Short) -> Option<Cuttings>
    ensures { OnSome result (IsMaced short.now.parts) }
{
    let record = &short.parts;
    let tag_len = record.tag.len();
    oneshots::macs(record, &mut tag_room()[..tag_len])?;
    oneshots::mac_refuses(record, &mut tag_room()[..tag_len])?;
    if record.msg.len() > cuttings::LONGEST {
        return Some(Cuttings { count: 0 });
    }
    cuttings::macing::cuttings(
        record,
        &mut tag_room()[..tag_len],
        &mut tag_room()[..tag_len],
    )
}

fn stream(short: &Short) -> Option<Cuttings>
    ensures { OnSome result (IsStreamed short.now.parts) }
{
    let record = &short.parts;
    let ct_len = record.ct.len();
    oneshots::streams(record, &mut text_room()[..ct_len])?;
    oneshots::stream_cancels(record, &mut text_room()[..ct_len])?;
    Some(Cuttings { count: 0 })
}

pub fn replayed(kind: Kind, short: &Short) -> Option<Cuttings>
    ensures { OnSome result (Holds short.now.parts kind) }
{
    match kind {
        Kind::Seal => seal(short),
        Kind::Refused => refused(short),
        Kind::Mac => mac(short),
        Kind::Stream => stream(short),
    }
}
