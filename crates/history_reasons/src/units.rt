//! Why an answer is wrong in a unit: its first byte with a reason.

ghost use Rattle.std.specs.Prelude.{◌≡◌, ◌+◌, ◌<◌, ◌^◌, length, drop};
ghost use Rattle.memory_histories.specs.Windows.{Windows};
ghost use Rattle.history_reasons.specs.Log.{IsLogOf};
ghost use Rattle.history_reasons.specs.Units.{reason_at, address_at, reason_from, unit_part, unit_reason};

use crate::Reason;
use crate::log::StoreLog;

/// A wrong byte of an answer, and why.
#[derive(Clone, Copy, PartialEq, Eq, Debug)]
pub struct FoundReason {
    /// From 0.
    pub place: usize,
    /// Why the load may not return it.
    pub reason: Reason,
}

impl StoreLog {
    /// The first byte with a reason ([`why`](StoreLog::why)) of an answer to the load open under
    /// this number, from this place on and within its aligned unit of so many bytes. `None`: if the
    /// log is whole, the regular law allows each byte for itself.
    pub fn unit_reason(
        &self,
        size: u64,
        number: u64,
        address: u64,
        bytes: &[u8],
        place: usize,
    ) -> Option<FoundReason>
        requires { 0 < size }
        ensures { (w : Windows)
            → IsLogOf self.now w
            → result ≡ unit_reason w size number address bytes.now place }
    {
        let part = unit_part(size, address, bytes, place);
        self.reason_from(number, address, part, place)
    }

    // The first of these bytes with a reason.
    fn reason_from(
        &self,
        number: u64,
        address: u64,
        bytes: &[u8],
        place: usize,
    ) -> Option<FoundReason>
        requires { place + length bytes.now < 2 ^ 64 }
        ensures { (w : Windows)
            → IsLogOf self.now w
            → result ≡ reason_from w number address bytes.now place }
    {
        for (k, byte) in bytes.iter().enumerate() {
            let here = place + k;
            if let Some(reason) = self.reason_at(number, address_at(address, here), *byte) {
                return Some(FoundReason {
                    place: here,
                    reason,
                });
            }
        }
        None
    }

    fn reason_at(&self, number: u64, address: u64, byte: u8) -> Option<Reason>
        ensures { (w : Windows)
            → IsLogOf self.now w
            → result ≡ reason_at w number address byte }
    {
        let load = self.load_at(number, address)?;
        if load.enabled {
            self.why(&load, byte)
        } else {
            None
        }
    }
}

fn address_at(address: u64, place: usize) -> u64
    ensures { result ≡ address_at address place }
{
    address.saturating_add(place as u64)
}

// The answer's bytes from a place on in that place's unit.
fn unit_part(size: u64, address: u64, bytes: &[u8], place: usize) -> &[u8]
    requires { 0 < size }
    ensures part { result.now ≡ unit_part size address bytes.now place }
    ensures short { place + length result.now < 2 ^ 64 }
{
    let most = (size - address_at(address, place) % size) as usize;
    let rest = bytes_from(bytes, place);
    &rest[..most.min(rest.len())]
}

// The bytes from a place on.
fn bytes_from(bytes: &[u8], place: usize) -> &[u8]
    ensures rest { result.now ≡ drop place bytes.now }
    ensures short { place + length result.now < 2 ^ 64 }
{
    if place < bytes.len() {
        &bytes[place..]
    } else {
        &[]
    }
}
