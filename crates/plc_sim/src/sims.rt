//! The device.

ghost use Rattle.std.specs.Prelude.{◌≡◌, IfOk};
ghost use Rattle.plc_sim.specs.Devices.{answer};

use crate::answers::answered;
use crate::images::Image;
use crate::requests::{number_at, requested};
use node_tree::ByteList;
use std::alloc::{AllocError, Global};
use std::marker::Model;

/// A device that answers requests of Modbus from what it holds. A write is confirmed and changes nothing.
#[derive(Debug, Drop)]
pub struct Sim {
    image: Image,
}

impl Model for Sim {
    ghost use Rattle.plc_sim.specs.declared.images.Image.{Image};
    ghost use Rattle.plc_sim.specs.contracts.images.Image as image_row;

    ghost Value = { Image };

    ghost coded = { image_row.the_row.coded };

    ghost view = { λ sim. sim.image };
}

impl Sim {
    /// A device with these lists.
    pub fn new(image: Image) -> Sim
        ensures { result ≡ image }
    {
        Sim { image }
    }

    /// The answer to a frame, of 9 to 259 bytes, or none where the frame is no request or begins at the silent address.
    ///
    /// Each unit and each reference is answered with its own number. A request is refused with exception 3 where its quantity, its count
    /// of bytes or a coil's value isn't one of its function, and else with exception 2 where it goes past its list's end. An `Err` is
    /// want of memory.
    pub fn answer(&self, alloc: Global, frame: &[u8]) -> Result<Option<ByteList>, AllocError>
        ensures { IfOk result (λ said. said ≡ answer self.now frame.now) }
    {
        let Some(function) = requested(frame) else {
            return Ok(None);
        };
        if self.image.silent == Some(number_at(frame, 8)) {
            return Ok(None);
        }
        Ok(Some(answered(alloc, &self.image, function, frame)?))
    }
}
