// The mode: which way a text goes.

// A plaintext is encrypted, or a ciphertext decrypted.
#[derive(Clone, Copy, PartialEq, Eq)]
pub enum Mode {
    Encrypt,
    Decrypt,
}
