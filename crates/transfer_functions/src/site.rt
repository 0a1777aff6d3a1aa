ghost use Rattle.std.specs.Prelude.{◌≡◌};
ghost use Rattle.x86_syntax.specs.Text.{next_address};
ghost use Rattle.x86_semantics.specs.Operands.{branch_target};

use image_loader::Image;
use std::alloc::Global;
use x86_semantics::{branch_target, next_address};

/// Where an instruction stands: in an image, at an address, with so many bytes.
#[derive(Clone, Copy)]
pub(crate) struct Site<'a> {
    pub(crate) alloc: Global,
    pub(crate) image: &'a Image,
    pub(crate) at: u32,
    pub(crate) len: u8,
}

impl Site<'_> {
    /// The address after it.
    pub(crate) fn next(&self) -> u32
        ensures { result ≡ next_address self.now.at self.now.len }
    {
        next_address(self.at, self.len)
    }

    /// Where its branch by an offset goes.
    pub(crate) fn target(&self, offset: i32) -> u32
        ensures { result ≡ branch_target self.now.at self.now.len offset }
    {
        branch_target(self.at, self.len, offset)
    }
}
