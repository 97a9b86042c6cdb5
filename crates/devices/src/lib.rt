// Document 02, K5: the list of devices, lent as a slice of their records, and the record of one. The calls above are on plain data.

#![tactic(auto)]

ghost use Rattle.std.specs.Prelude.{◌≡◌};
ghost use Rattle.model.specs.Devices.{device_at};

use model::Device;

// The record of a device, and an empty window where there is none.
pub fn look_up(devices: &[Device], device: usize) -> Device
    ensures { result ≡ device_at devices.now device }
{
    devices
        .get(device)
        .copied()
        .unwrap_or(Device { first: 1, last: 0 })
}
