//! The widths of words and addresses.
ghost use Rattle.std.specs.Prelude.{◌≡◌, is_some, Decides, IfSome};
ghost use Rattle.tw_types.specs.Types.{AreInRange, block_count};

use std::marker::Model;

/// The most bits of a word.
pub const WORD_LIMIT: u32 = 32;

/// The most bits of an address.
pub const ADDR_LIMIT: u32 = 8;

/// The widths, in bits, that a program is compiled for.
/// Every value is in range: a word has 1 to [`WORD_LIMIT`] bits, and an address 1 to [`ADDR_LIMIT`].
#[derive(Debug, Clone, Copy, PartialEq, Eq)]
pub struct Widths {
    /// The width of a word.
    pub word: u32,
    /// The width of an address. There are `2^addr - 1` blocks, and address 0 is null.
    pub addr: u32,
}

impl Model for Widths {
    ghost use Rattle.tw_types.specs.Types.{AreInRange};
    ghost use Rattle.tw_types.specs.Types as types;

    ghost Value = { types.Widths };

    ghost view = { λ fields. record { word = fields.word; addr = fields.addr } };

    ghost inverse = { λ widths. record { word = widths.word; addr = widths.addr } };

    ghost invariant = { λ fields. AreInRange (record { word = fields.word; addr = fields.addr }) };
}

impl Widths {
    /// The widths with these numbers of bits. `None` exactly if one of them is out of range.
    pub fn new(word: u32, addr: u32) -> Option<Widths>
        ensures value { IfSome result (λ widths. widths ≡ record { word = word; addr = addr }) }
        ensures exact { Decides (is_some result) (AreInRange (record { word = word; addr = addr })) }
    {
        let in_range = 1 <= word && word <= WORD_LIMIT && 1 <= addr && addr <= ADDR_LIMIT;
        if in_range {
            Some(Widths { word, addr })
        } else {
            None
        }
    }

    /// The number of blocks: one less than there are addresses.
    pub fn block_count(self) -> u32
        ensures { result ≡ block_count self }
    {
        (1 << self.addr) - 1
    }
}
