//! From an image of any version to one of version 2.
ghost use Rattle.kx_image.specs.Upgrade.{Upgrades};

use crate::fault::ImageFault;
use crate::view::View;
use crate::writer::write;
use ks_core::Out;
use thiserror::Error;

/// Why an image wasn't upgraded.
#[derive(Clone, Copy, PartialEq, Eq, Debug, Error)]
pub enum UpgradeFault {
    /// The bytes are no image; nothing was written.
    #[error("{0}")]
    Image(ImageFault),
    /// The writer failed; a beginning of the image was written.
    #[error("cannot write")]
    Write,
}

/// Writes the version 2 image of what an image of either version tells. Takes no memory.
pub fn upgrade<O: Out>(bytes: &[u8], out: &mut O) -> Result<(), UpgradeFault>
    ensures { Upgrades O.written O.failures bytes.now out.old out.new result }
{
    match View::open(bytes) {
        Ok(view) => match write(&view, out) {
            Ok(()) => Ok(()),
            Err(_) => Err(UpgradeFault::Write),
        },
        Err(fault) => Err(UpgradeFault::Image(fault)),
    }
}
