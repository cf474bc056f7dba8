// A block's hash.
ghost use Rattle.std.specs.Prelude.{◌≡◌, length};

#[derive(Clone, Copy)]
pub struct BlockHash {
    pub bytes: [u8; 32],
    ghost whole: { length bytes ≡ 32 },
}
