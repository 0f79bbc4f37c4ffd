//! What the library tells of itself.
ghost use Rattle.std.specs.Prelude.{◌≡◌, length};
ghost use Rattle.kroft_c.specs.Texts.{written};
ghost use Rattle.kroft_c.specs.Version.{version};

use crate::texts::write;

/// Writes the version of the library, as `0.2.0`, and a 0 behind it.
#[unsafe(no_mangle)]
#[tactic(auto, unfolding(crate::specs::Version::version))]
pub extern "C" fn kroft_version(text: &mut [u8]) -> u32
    ensures length { result ≡ length version }
    ensures text { text.new ≡ written text.old version }
{
    write(b"0.2.0", text)
}
