// The words before the first block: the parameter block, as plain numbers, and the initialization vector.
// Over plain numbers, so that a node of any tree needs no setter.
ghost use Rattle.std.specs.Prelude.{◌≡◌};
ghost use Rattle.definitions.specs.Family.{BLAKE2b};
ghost use Rattle.definitions.specs.Hash.{start};
ghost use Rattle.portable.specs.Nodes.{parameters_of};

use compression::IV;
use words::read_word;

// What a node of any tree is told.
#[derive(Clone, Copy)]
pub struct ParameterBlock {
    pub digest_length: u8,
    pub key_length: u8,
    pub fanout: u8,
    pub depth: u8,
    pub leaf_length: u32,
    pub node_offset: u64,
    pub node_depth: u8,
    pub inner_length: u8,
    pub salt: [u8; 16],
    pub personal: [u8; 16],
}

impl ParameterBlock {
    pub fn words(self) -> [u64; 8]
        ensures { result ≡ start BLAKE2b (parameters_of self) }
    {
        let lengths = u64::from(self.digest_length)
            + u64::from(self.key_length) * 0x100
            + u64::from(self.fanout) * 0x1_0000
            + u64::from(self.depth) * 0x100_0000
            + u64::from(self.leaf_length) * 0x1_0000_0000;
        let node = u64::from(self.node_depth) + u64::from(self.inner_length) * 0x100;
        [
            lengths ^ IV[0],
            self.node_offset ^ IV[1],
            node ^ IV[2],
            IV[3],
            read_word(&self.salt, 0) ^ IV[4],
            read_word(&self.salt, 8) ^ IV[5],
            read_word(&self.personal, 0) ^ IV[6],
            read_word(&self.personal, 8) ^ IV[7],
        ]
    }
}
