// A write, and the bank that it is for.
ghost use Rattle.std.specs.Prelude.{◌≡◌, ◌+◌, ◌<◌};
ghost use Rattle.frame.specs.Frame.{values_at};

// Where its values begin in the frame, the place of its first address, and how many registers it is for.
#[derive(Clone, Copy)]
pub(crate) struct Write<'a> {
    pub bank: &'a [u8],
    pub frame: &'a [u8],
    pub values: u8,
    pub first: u32,
    pub many: u32,
    pub ghost at: { values ≡ values_at frame.now },
}
