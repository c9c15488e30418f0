// The nonce rule, which stands here alone.
ghost use Rattle.std.specs.Prelude.{◌≡◌};
ghost use Rattle.hub_record.specs.Nonce.{nonce_of};

// Bytes 0 to 7 the scale number, bytes 8 to 15 the record number, little-endian.
#[tactic(auto, unfolding(crate::specs::Nonce::nonce_of))]
pub fn nonce(scale: u64, record: u64) -> [u8; 16]
    ensures { result ≡ nonce_of scale «record» }
{
    let mut bytes = [0; 16];
    bytes[..8].copy_from_slice(&scale.to_le_bytes());
    bytes[8..].copy_from_slice(&record.to_le_bytes());
    bytes
}
