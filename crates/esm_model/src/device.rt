// The state of a device when a book was opened over it. The device is a disk, a pair of disks or a destination. For
// contracts alone.
use std::marker::Model;

/// The whole state of a device when a book was opened over it: a disk, a pair of disks or a destination, of any type.
/// Contracts see its code; two states with one code are equal. Only contracts use it: no value is made.
pub struct DeviceFound {
    number: u64,
}

impl Model for DeviceFound {
    ghost use base.Stored.{Gv, gnum};
    ghost use Rattle.esm_model.specs.Device.{coded_whole};

    ghost Value = { Gv };

    ghost coded = { coded_whole };

    ghost view = { λ device. gnum device.number };
}
