// The S-box as a value, which is lent to each round.
ghost use Rattle.std.specs.Prelude.{◌≡◌};
ghost use Rattle.aes.specs.Field.{sbox, Table};

#[derive(Clone, Copy)]
pub struct Sbox {
    pub entries: [u8; 256],
    pub ghost is_table: { Table entries },
}

impl Sbox {
    // The S-box of a byte.
    pub(crate) fn of(&self, b: u8) -> u8
        ensures { result ≡ sbox b }
    {
        self.entries[b as usize]
    }
}
