//! Loading.

ghost use Rattle.std.specs.Prelude.{◌≡◌, ◌≢◌, IfSome};
ghost use Rattle.edd_instructions.specs.Validity.{BreaksFirst, IsValid};
ghost use Rattle.edd_loader.specs.Faults.{rule_of};
ghost use Rattle.edd_loader.specs.declared.fault.LoadFault.{LoadFault};
ghost use Rattle.edd_embed.specs.Images.{AreOf};
ghost use Rattle.edd_embed.specs.Statuses.{load_status};

use edd_embed::statuses::{DONE, load_status};
use edd_embed::{ImageNumbers, load_numbers};
use std::alloc::Global;

/// Loads an image, and writes its numbers.
#[unsafe(no_mangle)]
pub extern "C" fn edd_load(alloc: Global, bytes: &[u8], image: &mut ImageNumbers) -> u32
    ensures sound { result ≡ 0 → AreOf image.new bytes.now }
    ensures accepted { result ≡ 0 → IsValid bytes.now }
    ensures refused { result ≢ 0 → (fault : LoadFault) × (result ≡ load_status fault)
        × IfSome (rule_of fault) (BreaksFirst bytes.now) }
    ensures kept { result ≢ 0 → image.new ≡ image.old }
{
    match load_numbers(alloc, bytes) {
        Ok(numbers) => {
            *image = numbers;
            DONE
        }
        Err(fault) => load_status(fault),
    }
}
