// The recorded list, as compare/ writes it: numbers are little-endian, and a record is kind (1 byte), tag size (1), key (16), nonce (16),
// AD length (2), message length (2), AD, message, ciphertext, tag. A MAC has no ciphertext; a stream has no message and no tag, and its
// keystream stands in the ciphertext's place. A separator or an end is its kind alone.
ghost use Rattle.std.specs.Prelude.{◌≡◌, ◌≤◌, ◌<◌, length, get_or, IfSome};
ghost use Rattle.recorded.specs.List as spec;

// What stands before the AD.
pub const HEAD: usize = 38;

// The most that a record's message has, and its tag.
pub const LONGEST: usize = 512;

pub const LONGEST_TAG: usize = 32;

// What a record was made by: sealing, an opening that refused the tag, a MAC, or a stream.
#[derive(Clone, Copy, PartialEq, Eq)]
pub enum Kind {
    Seal = 1,
    Refused = 2,
    Mac = 3,
    Stream = 4,
}

// Where the parts of a record start, and where it ends.
#[derive(Clone, Copy)]
pub struct Layout {
    pub msg: usize,
    pub ct: usize,
    pub tag: usize,
    pub end: usize,
}

// The parts of a record, as they stand in the list.
#[derive(Clone, Copy)]
pub struct Record<'a> {
    pub key: &'a [u8],
    pub nonce: &'a [u8],
    pub ad: &'a [u8],
    pub msg: &'a [u8],
    pub ct: &'a [u8],
    pub tag: &'a [u8],
}

// A record none of whose parts is longer than the list's are.
#[derive(Clone, Copy)]
pub struct Short<'a> {
    pub parts: Record<'a>,
    pub ghost msg_short: { length parts.msg.now ≤ 512 },
    pub ghost ct_short: { length parts.ct.now ≤ 512 },
    pub ghost tag_short: { length parts.tag.now ≤ 32 },
}

// What stands behind the last record of a section: the published vectors end with a separator, the recorded answers with the end.
#[derive(Clone, Copy, PartialEq, Eq)]
pub enum Mark {
    End,
    Separator,
}

// What a list begins with: a mark, or a record of a kind, and where the next one starts.
#[derive(Clone, Copy)]
pub enum Entry<'a> {
    Mark(Mark),
    Record(Kind, Short<'a>, usize),
}

// The byte at place i, or 0 past the end.
pub fn byte_at(list: &[u8], i: usize) -> u8
    ensures { result ≡ get_or list.now i 0 }
{
    list.get(i).copied().unwrap_or(0)
}

fn number_at(list: &[u8], i: usize) -> usize
    requires { i < 38 }
    ensures { (result ≡ spec.number_at i list.now) × (result < 65536) }
{
    u16::from_le_bytes([byte_at(list, i), byte_at(list, i + 1)]) as usize
}

// A part of n bytes, which records of one kind leave out.
fn unless(kind: u8, without: u8, n: usize) -> usize
    ensures { (result ≡ spec.unless kind without n) × (result ≤ n) }
{
    if kind == without { 0 } else { n }
}

// Of the record at the start of a list, whether or not it stands whole there.
pub fn laid_out(list: &[u8]) -> Layout
    ensures { spec.LaidOut list.now result }
{
    let kind = byte_at(list, 0);
    let n = number_at(list, 36);
    let msg = HEAD + number_at(list, 34);
    let ct = msg + unless(kind, Kind::Stream as u8, n);
    let tag = ct + unless(kind, Kind::Mac as u8, n);
    let end = tag + byte_at(list, 1) as usize;
    Layout { msg, ct, tag, end }
}

impl<'a> Short<'a> {
    ghost use Rattle.recorded.specs.Entries.{Taken, code};

    // The record of a kind at the start of a list, and where the next one starts; none where it does not stand whole there, or has a part
    // longer than records have.
    fn first(list: &'a [u8], kind: Kind) -> Option<(Short<'a>, usize)>
        requires { spec.kind_of list.now ≡ code kind }
        ensures { IfSome result (λ p. Taken list.now kind p.0.parts p.1) }
    {
        let Layout { msg, ct, tag, end } = laid_out(list);
        if ct - msg > LONGEST || tag - ct > LONGEST || end - tag > LONGEST_TAG {
            return None;
        }
        let parts = Record {
            key: list.get(2..18)?,
            nonce: list.get(18..34)?,
            ad: list.get(HEAD..msg)?,
            msg: list.get(msg..ct)?,
            ct: list.get(ct..tag)?,
            tag: list.get(tag..end)?,
        };
        Some((Short { parts }, end))
    }
}

impl<'a> Entry<'a> {
    ghost use Rattle.recorded.specs.Entries.{Begins};

    // What a list begins with, if it stands whole there.
    pub fn first(list: &'a [u8]) -> Option<Entry<'a>>
        ensures { IfSome result (λ e. Begins list.now e) }
    {
        let kind = match list.first()? {
            0 => return Some(Entry::Mark(Mark::End)),
            1 => Kind::Seal,
            2 => Kind::Refused,
            3 => Kind::Mac,
            4 => Kind::Stream,
            5 => return Some(Entry::Mark(Mark::Separator)),
            _ => return None,
        };
        let (short, end) = Short::first(list, kind)?;
        Some(Entry::Record(kind, short, end))
    }
}
