ghost use Rattle.std.specs.Prelude.{◌≡◌};
ghost use Rattle.flow_worklist.specs.Post.{site_at};

use image_loader::Image;
use memory_map::USER_END;

/// What is at an address.
#[derive(Clone, Copy)]
pub enum Site {
    /// The place at which a run has exited.
    Exit,
    /// The place of an import.
    Import,
    /// Code, or nothing.
    Code,
}

/// What an image has at an address.
#[tactic(auto, unfolding(crate::specs::Post::site_at))]
pub fn site_at(image: &Image, at: u32) -> Site
    ensures { result ≡ site_at image.now at }
{
    if at == USER_END {
        return Site::Exit;
    }
    match image.name_at(at) {
        Some(_) => Site::Import,
        None => Site::Code,
    }
}
