ghost use Rattle.std.specs.Prelude.{◌<◌, ◌^◌, length};

mod checked;
mod kept;
mod refused;

use demo_images::form_e;
use image_loader::{Image, load};
use std::alloc::Global;
use std::test::Fail;
use stub_file::Stubs;

// An image of these bytes at 08048000, in one segment with these flags.
fn image_of(alloc: Global, code: &[u8], flags: u32) -> Result<Image, Fail>
    requires { length code.now < 2 ^ 24 }
{
    let bytes = form_e(alloc, code, flags)?;
    let loaded = load(alloc, &bytes).ok().ok_or("no image")?;
    Ok(loaded.bind(alloc, &Stubs::none(alloc))?)
}

// A jump to itself, in an image of sixteen bytes from 08048000 on that may be written.
fn image(alloc: Global) -> Result<Image, Fail> {
    let code = b"\xEB\xFE\x90\x90\x90\x90\x90\x90\x90\x90\x90\x90\x90\x90\x90\x90";
    image_of(alloc, code, 7)
}
