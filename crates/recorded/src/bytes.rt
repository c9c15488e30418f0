// What is asked of bytes, and done to them, in several places.
ghost use Rattle.std.specs.Prelude.{◌≡◌, true, length, OnSome};
ghost use Rattle.machine.specs.Bytes.{zeros};
ghost use Rattle.recorded.specs.Records.{flipped};

// Whether every byte is 0.
pub fn is_zero(bytes: &[u8]) -> bool
    ensures { result ≡ true → bytes.now ≡ zeros (length bytes.now) }
{
    bytes.iter().all(|byte| *byte == 0)
}

// Bytes that were made are those that are recorded; none where they differ.
pub fn same(made: &[u8], recorded: &[u8]) -> Option<()>
    ensures { OnSome result (made.now ≡ recorded.now) }
{
    (made == recorded).then_some(())
}

// Lays bytes over a buffer of their length; none where it has another.
pub fn lay(bytes: &[u8], buf: &mut [u8]) -> Option<()>
    ensures { OnSome result (buf.new ≡ bytes.now) }
{
    if buf.len() != bytes.len() {
        return None;
    }
    buf.copy_from_slice(bytes);
    Some(())
}

// Makes a tag with one bit changed; none where there is no room, or no tag.
pub fn damage(tag: &[u8], damaged: &mut [u8]) -> Option<()>
    ensures { OnSome result (damaged.new ≡ flipped tag.now) }
{
    lay(tag, damaged)?;
    let first = damaged.first_mut()?;
    *first ^= 1;
    Some(())
}
